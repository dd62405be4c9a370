//! Keys of variables, literals over keys, and cubes.
use net_model::Tern;
use sdcv_base::Seq;

/// A bit of one cycle.
///
/// Layer 0 is the cycle itself, and layer l + 1 the layer of its late start that has come through l through sets. Rail 0
/// says there that the value may be 1, and rail 1 that it may be 0; where hazards don't count, a layer has rail 0 alone.
/// The points below the number of nets are the nets; the register bits and the further points of layer 0 come after.
#[derive(Debug, Clone, Copy, PartialEq, Eq, PartialOrd, Ord, Hash)]
pub struct Key {
    pub cycle: usize,
    pub layer: usize,
    pub rail: usize,
    pub point: usize,
}

/// A key, or its complement.
#[derive(Debug, Clone, Copy, PartialEq, Eq)]
pub struct KeyLit {
    pub key: Key,
    pub positive: bool,
}

/// Which cubes stand for a function: all its rows, or its prime cubes.
#[derive(Debug, Clone, Copy, PartialEq, Eq)]
pub enum Coding {
    Rows,
    Primes,
}

/// Values of some of the places of a function, place 0 first, and the function's value wherever the places have them.
#[derive(Drop)]
pub struct Cube {
    pub fixed: Seq<Tern>,
    pub value: bool,
}
