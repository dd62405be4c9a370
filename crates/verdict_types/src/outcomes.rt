//! What is found out about a claim, and how far the search may go.
use net_model::{Phase, Stimulus};
use proof_log::Derivation;
use sdcv_base::Seq;

/// The greatest depth of a query, and how many clauses may be learnt for each.
#[derive(Debug, Clone, Copy, PartialEq, Eq)]
pub struct Limits {
    pub depth: usize,
    pub budget: u64,
}

/// Why a claim holds.
#[derive(Drop)]
pub enum Proof {
    /// It judges no capture.
    Single,
    /// Its start is a reset or fixed input, which never toggles.
    Fixed,
    /// The derivations refute the base queries of the smaller depths, in order, and the step query of this one.
    Depth {
        depth: usize,
        base: Seq<Derivation>,
        step: Derivation,
    },
}

/// Why it stays open whether a claim holds.
#[derive(Drop)]
pub enum Cause {
    /// The step query of the greatest depth has an answer.
    Depth,
    /// The log spends the budget on a query of this depth.
    Budget {
        phase: Phase,
        depth: usize,
        log: Derivation,
    },
    /// The stimulus violates the claim at this offset, but maybe by bits of inputs that stand for what the design leaves open,
    /// which the whole netlist may never give.
    Free {
        offset: usize,
        stimulus: Stimulus,
    },
    /// A path may lead from the start to the end through cells that are cut out of the design.
    Cut,
}

/// What is found out about a claim. It is refuted by the stimulus of a run whose start toggles `offset` cycles after the
/// first cycle in which it can.
#[derive(Drop)]
pub enum Verdict {
    Justified(Proof),
    Refuted { offset: usize, stimulus: Stimulus },
    Undecided(Cause),
}
