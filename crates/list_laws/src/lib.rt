//! Laws of lists that proofs of several crates cite and std has not. It has no code.
//!
//! `proofs/Joining` has what is made of a list item by item. A law that one crate alone needs stands in that crate, since all
//! that stand on this one are proved anew when it changes.
#![tactic(auto)]
