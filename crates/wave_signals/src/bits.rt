//! Bits by name.
use sdcv_base::{Name, Seq};

/// What a bit is: the value of a net, or the state of a register.
#[derive(Clone, Copy, PartialEq, Eq)]
pub enum BitKind {
    Wire,
    Reg,
}

/// A bit with its full name (`u_path/a_reg[0]`), and its value in each cycle.
#[derive(Drop)]
pub struct NamedBit {
    pub kind: BitKind,
    pub name: Name,
    pub values: Seq<bool>,
}
