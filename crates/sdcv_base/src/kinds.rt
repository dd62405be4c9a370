//! What a timing exception says: the kind of path, and the edge of its start.

/// A false path, or a multicycle path with its multiplier, from 1 to 16 (SDC 2.1, `set_false_path` and
/// `set_multicycle_path`).
#[derive(Debug, Clone, Copy, PartialEq, Eq)]
pub enum Kind {
    False,
    Multi(u8),
}

/// At which change of the start's own bit a path begins (SDC 2.1, `-from`, `-rise_from` and `-fall_from`).
#[derive(Debug, Clone, Copy, PartialEq, Eq)]
pub enum Edge {
    Any,
    Rise,
    Fall,
}
