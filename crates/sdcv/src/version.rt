//! Which program this is.

/// The program's version, and those of the certificates. `dist` writes the commit and the kit of what it packs before the brackets.
pub const VERSION: &str = "0.9.0 (reads certificates sdcv-cert 1 to 3, writes 2 and 3)";
