//! Values that the definitions are held to: what a comment, a constant, a clock tree, a path, a pattern or a certificate is at a
//! value worked by hand, and for what is a relation a case that it does not take.
//!
//! `proofs/` has a file for each subject; each lemma's name is the fact. `calls.rt` says for some public calls what they
//! answer at such a value, proved from their contracts alone. Nothing stands on this crate, and it makes nothing.
#![tactic(auto)]

mod calls;

pub use calls::{
    caret_is_read_as_exclusive_or, comment_is_skipped, constant_is_taken, need_is_ordered_first,
    path_to_itself_is_found, register_keeps_its_bit, star_is_matched_within_a_part,
};
