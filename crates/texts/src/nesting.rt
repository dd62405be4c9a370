//! How deep the marks of a text may nest.

/// How many marks of nesting may be open at once: braces, brackets, groups, parentheses.
pub const MOST_NESTED: usize = 256;
