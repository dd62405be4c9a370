//! Signals.
use crate::bits::BitKind;
use sdcv_base::{Name, Seq};

/// A full name without its index: the parts before its last `/`, and the last part before and after the index.
///
/// `u_path/x[1]_reg` has the scope `u_path`, the front `x` and the back `_reg`.
#[derive(Drop)]
pub struct Stem {
    pub scopes: Seq<Name>,
    pub front: Name,
    pub back: Name,
}

/// The indices of a signal's bits: none, or one more or one less from bit to bit, from this first one on.
#[derive(Clone, Copy)]
pub enum Span {
    Whole,
    Up(u64),
    Down(u64),
}

/// Bits whose full names differ in their index alone, and for each of them its value in each cycle.
#[derive(Drop)]
pub struct Signal {
    pub kind: BitKind,
    pub stem: Stem,
    pub span: Span,
    pub values: Seq<Seq<bool>>,
}
