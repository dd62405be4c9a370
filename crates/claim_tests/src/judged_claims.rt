//! Verdicts, beside those worked out by hand.
use crate::designs::{AFTER_7, LATE, NEVER_7, PARITY, PHASES, RING, TURNS};
use crate::wants::Row;
use crate::wants::Said::{Fixed, Justified, Refuted, Single, Spends, Stays};
use crate::wants::Want::Says;
use net_model::Phase;
use net_model::PinRef::Net;
use net_samples::Ask::{Early, From, Hazard, In, Multi, Out, To, Via};
use net_samples::{BOTH, CELL, GATES, PORTS, RESET, TWO};

const MUCH: u64 = 20_000;

// A run has the cycles up to the last capture that is judged: those of the reset, as many as the offset, one, and the judged ones.
pub const VERDICTS: &[Row] = &[
    // A register that takes another one captures its bit in the cycle of the toggle.
    Row(RESET, &[&[]], Says(0, 8, MUCH, Refuted(0, 3))),
    Row(RESET, &[&[Multi(2)]], Says(0, 8, MUCH, Refuted(0, 3))),
    Row(RESET, &[&[In(0), To(0)]], Says(0, 8, MUCH, Refuted(0, 3))),
    // The bad cycle is that of the toggle, and the run goes on to the last one that is judged.
    Row(TWO, &[&[Multi(3)]], Says(0, 8, MUCH, Refuted(0, 3))),
    Row(
        TURNS,
        &[&[From(0), To(0), Multi(2)]],
        Says(0, 8, MUCH, Refuted(0, 3)),
    ),
    // No capture is judged, or the start never toggles.
    Row(RESET, &[&[Multi(1)]], Says(0, 8, MUCH, Single)),
    Row(
        PORTS,
        &[&[In(2), Out(0), Multi(1)]],
        Says(0, 8, MUCH, Single),
    ),
    Row(PORTS, &[&[In(2), Out(0)]], Says(0, 8, MUCH, Fixed)),
    Row(RESET, &[&[In(1), To(1)]], Says(0, 8, MUCH, Fixed)),
    Row(PORTS, &[&[In(0), Out(0)]], Says(0, 8, MUCH, Refuted(0, 2))),
    // Register 1 changes two cycles after the cycle in which register 0 takes the input.
    Row(PHASES, &[&[Multi(2)]], Says(0, 8, MUCH, Justified(0))),
    Row(PHASES, &[&[Multi(3)]], Says(0, 8, MUCH, Refuted(0, 4))),
    // Two tokens in the ring would break it, and so would the counter at 7.
    Row(RING, &[&[Multi(2)]], Says(0, 8, MUCH, Stays)),
    Row(NEVER_7, &[&[Multi(2)]], Says(0, 8, MUCH, Stays)),
    // Clauses of two literals leave the ring one token at most. One that leaves out 7 has three.
    Row(RING, &[&[Multi(2)]], Says(1, 8, MUCH, Justified(0))),
    Row(NEVER_7, &[&[Multi(2)]], Says(1, 8, MUCH, Stays)),
    // Nothing leads to 7, so a stretch of one more cycle decides.
    Row(AFTER_7, &[&[]], Says(0, 0, MUCH, Stays)),
    Row(AFTER_7, &[&[]], Says(0, 8, MUCH, Justified(1))),
    // That register 2 is 0 is kept at depth 2 alone.
    Row(AFTER_7, &[&[]], Says(1, 8, MUCH, Justified(1))),
    Row(AFTER_7, &[&[]], Says(2, 8, MUCH, Justified(0))),
    // Register 3 is 1 from the third cycle after the reset on.
    Row(LATE, &[&[]], Says(0, 0, MUCH, Stays)),
    Row(LATE, &[&[]], Says(0, 8, MUCH, Refuted(1, 4))),
    // A parity takes more than one clause.
    Row(PARITY, &[&[]], Says(0, 8, 1, Spends(Phase::Base, 0))),
    Row(PARITY, &[&[]], Says(0, 8, MUCH, Justified(0))),
    // Four gates may glitch where one cell of the same function does not.
    Row(GATES, &[&[]], Says(0, 8, MUCH, Justified(0))),
    Row(GATES, &[&[Hazard]], Says(0, 8, MUCH, Refuted(0, 2))),
    Row(CELL, &[&[Hazard]], Says(0, 8, MUCH, Justified(0))),
    // A register that takes another one captures an early bit in the cycle before the toggle.
    Row(RESET, &[&[Early]], Says(0, 8, MUCH, Refuted(0, 3))),
    // A bit and its complement are never both 1, be they early or late.
    Row(BOTH, &[&[Early]], Says(0, 8, MUCH, Justified(0))),
    // The late bit and the complement of the new one are both 1.
    Row(BOTH, &[&[]], Says(0, 8, MUCH, Justified(0))),
    Row(BOTH, &[&[Via(Net(1))]], Says(0, 8, MUCH, Refuted(0, 2))),
];
