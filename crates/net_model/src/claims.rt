//! What a timing exception claims of one pair of a start and an end.
ghost use Rattle.std.specs.Prelude.{◌≡◌};
ghost use Rattle.net_model.specs.Judge.{judged_count};

use crate::pins::PinSet;
use sdcv_base::{Edge, Kind, Seq};

/// Where a path starts: at a register or an input, by its place in the design's list.
#[derive(Debug, Clone, Copy, PartialEq, Eq)]
pub enum Start {
    Reg(usize),
    Input(usize),
}

/// Where a path ends: at a register or an output, by its place in the design's list.
#[derive(Debug, Clone, Copy, PartialEq, Eq)]
pub enum End {
    Reg(usize),
    Output(usize),
}

/// A pin on a path: the driver pin of a net, an input pin of a gate or a register, by its number and the place in
/// `ins`, or an output port.
#[derive(Debug, Clone, Copy, PartialEq, Eq, PartialOrd, Ord)]
pub enum PinRef {
    Net(usize),
    GateIn(usize, usize),
    RegIn(usize, usize),
    OutPort(usize),
}

/// A claim about the paths from `start` to `end` that meet a pin of each set of `through`, in that order.
///
/// The paths begin where the start's own bit changes as `edge` says. A false path is judged at `lag` more captures than
/// the first; a multicycle path has no lag. With `hazard` the end may not see a glitch either.
pub struct Claim {
    pub kind: Kind,
    pub edge: Edge,
    pub lag: u8,
    pub hazard: bool,
    /// Whether the claim is of the hold side of a false path: the start's change may come early, and be captured at the very
    /// edge at which it happens.
    pub early: bool,
    pub start: Start,
    pub end: End,
    pub through: Seq<PinSet>,
}

// Let go by a call of its own: whoever owns one proves nothing of how its parts are kept.
impl Drop for Claim {
    fn drop(self) {
        let Claim {
            kind: _kind,
            edge: _edge,
            lag: _lag,
            hazard: _hazard,
            early: _early,
            start: _start,
            end: _end,
            through: _through,
        } = self;
    }
}

impl Claim {
    /// How many captures from the toggle on are judged: of a false path the first and one for each cycle of its lag; of a
    /// multicycle path those of the cycles before the last (Higuchi, DAC 2002), so none of a multiplier of 1.
    pub fn judged_count(&self) -> usize
        ensures { result ≡ judged_count self.now }
    {
        match self.kind {
            Kind::False => usize::from(self.lag) + 1,
            Kind::Multi(cycles) => usize::from(cycles.saturating_sub(1)),
        }
    }
}
