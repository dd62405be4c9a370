//! Which program this is.

/// The program's version. `dist` writes the commit and the kit of what it packs after it.
pub const VERSION: &str = "0.9.0";
