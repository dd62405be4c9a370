//! The lines of answers.
use crate::builders::joined;
use answer_lines::{
    GraphCounts, accepted_lines, aiger_line, no_pair_line, rejected_line, replay_line,
    replayed_line, stimulus_line,
};
use cert_values::CertFault::{
    self, Form, Invariant, NotTrivial, Pair, TwicePair, UnknownPair, UnknownRegister, Version,
};
use rup_check::CheckFault::{HintMissing, HintNotUnit, NoConflict, NotEmpty};
use std::alloc::{AllocError, Global};
use witness_replay::{Replay, ReplayFault, StimFault};

const REJECTED: &[(CertFault, &str)] = &[
    (Form(34), "rejected 1 Form 34\n"),
    (Version(9), "rejected 2 Version 9\n"),
    (UnknownRegister(1), "rejected 3 UnknownRegister 1\n"),
    (UnknownPair(2), "rejected 4 UnknownPair 2\n"),
    (TwicePair(1), "rejected 5 TwicePair 1\n"),
    (NotTrivial(1), "rejected 6 NotTrivial 1\n"),
    (Invariant(1, NotEmpty), "rejected 7 Invariant 1 NotEmpty\n"),
    (Pair(1, NoConflict(1)), "rejected 8 Pair 1 NoConflict 1\n"),
    (Pair(1, HintMissing(1)), "rejected 8 Pair 1 HintMissing 1\n"),
    (
        Pair(2, HintNotUnit(3, 4)),
        "rejected 8 Pair 2 HintNotUnit 3 4\n",
    ),
];

#[test]
fn each_cause_of_a_certificate_has_its_line(rt: HostRuntime) -> Result<(), AllocError> {
    for (fault, want) in REJECTED {
        let line = rejected_line(rt.alloc(), fault)?;
        assert!(rt; line.as_slice() == want.as_bytes(), "{want}");
    }
    Ok(())
}

/// Pairs of which the claims hold, of so many, and their lines.
struct Accepted(&'static [u64], usize, &'static str);

const ACCEPTED: &[Accepted] = &[
    Accepted(&[], 1, "accepted 0 of 1\n"),
    Accepted(&[1, 10], 12, "accepted 2 of 12\npair 1\npair 10\n"),
];

fn accepted_text(alloc: Global, row: &Accepted) -> Result<Vec<u8>, AllocError> {
    let lines = accepted_lines(alloc, row.0, row.1)?;
    joined(alloc, &lines)
}

#[test]
fn each_accepted_pair_has_a_line(rt: HostRuntime) -> Result<(), AllocError> {
    for row in ACCEPTED {
        let text = accepted_text(rt.alloc(), row)?;
        assert!(rt; text.as_slice() == row.2.as_bytes(), "{}", row.2);
    }
    Ok(())
}

/// What a replay of pair 1 comes to.
enum Replayed {
    NoPair(u64),
    NoStimulus(StimFault),
    Refused(ReplayFault),
    Answer(Replay),
}

const REPLAYED: &[(Replayed, &str)] = &[
    (Replayed::NoPair(2), "refused pair 1 NoPair 2\n"),
    (
        Replayed::NoStimulus(StimFault::NoBlock),
        "refused stimulus 1 NoBlock\n",
    ),
    (
        Replayed::NoStimulus(StimFault::Form(4)),
        "refused stimulus 2 Form 4\n",
    ),
    (
        Replayed::Refused(ReplayFault::Shape),
        "refused replay 1 Shape\n",
    ),
    (
        Replayed::Refused(ReplayFault::NotReset(0)),
        "refused replay 2 NotReset 0\n",
    ),
    (
        Replayed::Answer(Replay::Violated(2)),
        "pair 1 violated at 2\n",
    ),
    (Replayed::Answer(Replay::Holds), "pair 1 holds\n"),
];

fn line_of(alloc: Global, row: &Replayed) -> Result<Vec<u8>, AllocError> {
    match row {
        Replayed::NoPair(number) => no_pair_line(alloc, *number),
        Replayed::NoStimulus(fault) => stimulus_line(alloc, fault),
        Replayed::Refused(fault) => replay_line(alloc, fault),
        Replayed::Answer(answer) => replayed_line(alloc, 1, *answer),
    }
}

#[test]
fn each_answer_to_a_replay_has_its_line(rt: HostRuntime) -> Result<(), AllocError> {
    for (row, want) in REPLAYED {
        let line = line_of(rt.alloc(), row)?;
        assert!(rt; line.as_slice() == want.as_bytes(), "{want}");
    }
    Ok(())
}

// How many nets are free, and the line.
const GRAPHS: &[(Option<u64>, &str)] = &[
    (None, "aiger pair 2 inputs 4 latches 12 gates 105\n"),
    (
        Some(0),
        "aiger pair 2 inputs 4 latches 12 gates 105 free 0\n",
    ),
    (
        Some(17),
        "aiger pair 2 inputs 4 latches 12 gates 105 free 17\n",
    ),
];

#[test]
fn the_line_of_a_graph_has_its_counts(rt: HostRuntime) -> Result<(), AllocError> {
    let counts = GraphCounts {
        inputs: 4,
        latches: 12,
        gates: 105,
    };
    for (free, want) in GRAPHS {
        let line = aiger_line(rt.alloc(), 2, counts, *free)?;
        assert!(rt; line.as_slice() == want.as_bytes(), "{want}");
    }
    Ok(())
}
