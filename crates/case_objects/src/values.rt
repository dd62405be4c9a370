//! Values that case analyses set, and what comes of them.
use case_inputs::Assumed;
use net_model::{Fixed, PinRef};
use sdcv_base::{Name, Seq};

/// The value that a case analysis on this line sets on a data input, a pin or a net, by its full name. `place` is what the thing
/// stands for in through, and `input` is the data input whose net that is, if it is one.
#[derive(Drop)]
pub struct CaseValue {
    pub line: u64,
    pub name: Name,
    pub value: bool,
    pub place: Seq<PinRef>,
    pub input: Option<usize>,
}

/// What a user is told: a case analysis on this line sets a value inside the design, on what has this full name.
#[derive(Drop)]
pub struct Told {
    pub line: u64,
    pub name: Name,
    pub value: bool,
}

/// What the case analyses of a script assume, with the full names in the same order; the inputs that they fix besides those that
/// the design has fixed; and what is told, each assumption and each free input that is fixed.
#[derive(Drop)]
pub struct CaseObjects {
    pub assumed: Seq<Assumed>,
    pub names: Seq<Name>,
    pub fixed: Seq<Fixed>,
    pub told: Seq<Told>,
}
