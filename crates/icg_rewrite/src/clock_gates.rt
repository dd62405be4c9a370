//! Clock gates, and a design with them.
use net_model::{Design, Func};
use sdcv_base::Seq;

/// A clock gate: it passes in the cycles in which `func` is 1 and its parent, if it has one, passes. Place i of `func` is
/// net `ins[i]`.
///
/// `parent` is the number of the clock gate that stands above this one on the clock tree.
#[derive(Drop)]
pub struct ClockGate {
    pub func: Func,
    pub ins: Seq<usize>,
    pub parent: Option<usize>,
}

/// A design with clock gates. `of` has for each register the number of the clock gate behind which it stands, or none
/// where the clock comes through in each cycle.
#[derive(Drop)]
pub struct Gated {
    pub design: Design,
    pub gates: Seq<ClockGate>,
    pub of: Seq<Option<usize>>,
}
