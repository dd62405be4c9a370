//! Replays of designs by hand, from the texts of their stimuli.
use crate::sound_cases::sound_case;
use net_model::PinRef;
use net_samples::Ask::{Falls, Hazard, Lag, Multi, Rises, To, Via};
use net_samples::{Ask, GLITCHING_PAIR, Part, RESET_FIRST};
use std::alloc::{AllocError, Global};
use std::process::Abort;
use witness_replay::{Replay, ReplayFault, read_stim, replay};

// A claim from register 0, to register 1 if no other is said, a text, and what the claim is found to be in the text's
// stimulus of number 2.
struct Row(&'static [Ask], &'static str, Result<Replay, ReplayFault>);

fn check_row(rt: &impl Abort, alloc: Global, parts: &[Part], row: &Row) -> Result<(), AllocError> {
    let case = sound_case(rt, alloc, parts, row.0)?;
    match read_stim(alloc, row.1.as_bytes(), 2) {
        Ok(stimulus) => {
            let found = replay(alloc, &case.design, &case.claim, &stimulus);
            assert_eq!(rt; found, row.2, "{}", row.1);
        }
        Err(fault) => assert!(rt; false, "{fault}"),
    }
    Ok(())
}

const FLOPS: &[Row] = &[
    Row(
        &[],
        "stimulus 2 cycles 3\nstate 00\ninput 10\ninput 01\ninput 00\nend\n",
        Ok(Replay::Violated(2)),
    ),
    Row(
        &[Rises],
        "stimulus 2 cycles 3\nstate 00\ninput 10\ninput 01\ninput 00\nend\n",
        Ok(Replay::Violated(2)),
    ),
    Row(
        &[Falls],
        "stimulus 2 cycles 3\nstate 00\ninput 10\ninput 01\ninput 00\nend\n",
        Ok(Replay::Holds),
    ),
    Row(
        &[],
        "stimulus 2 cycles 3\nstate 00\ninput 10\ninput 00\ninput 00\nend\n",
        Ok(Replay::Holds),
    ),
    Row(
        &[],
        "stimulus 2 cycles 3\nstate 00\ninput 00\ninput 01\ninput 00\nend\n",
        Err(ReplayFault::NotReset(0)),
    ),
    Row(
        &[],
        "stimulus 2 cycles 3\nstate 00\ninput 10\ninput 01\ninput 10\nend\n",
        Err(ReplayFault::NotReset(2)),
    ),
    Row(
        &[],
        "stimulus 2 cycles 3\nstate 00\ninput 10\ninput 0\ninput 00\nend\n",
        Err(ReplayFault::Shape),
    ),
    Row(
        &[],
        "stimulus 2 cycles 0\nstate 00\nend\n",
        Err(ReplayFault::Shape),
    ),
];

// Register 0 takes d in cycle 1, the first live one, and toggles in cycle 2, where register 1 captures it late.
#[test]
fn a_late_toggle_is_captured_by_the_next_flop(rt: HostRuntime) -> Result<(), AllocError> {
    for row in FLOPS {
        check_row(&rt, rt.alloc(), RESET_FIRST, row)?;
    }
    Ok(())
}

const VIOLATED: Result<Replay, ReplayFault> = Ok(Replay::Violated(1));

const HOLDS: Result<Replay, ReplayFault> = Ok(Replay::Holds);

// Register 0 toggles from 0 to 1 in cycle 1, while e stays 1.
const STAYS: &str = "stimulus 2 cycles 2\nstate 0000\ninput 11\ninput 01\nend\n";

// The same, while e falls.
const FALLS: &str = "stimulus 2 cycles 2\nstate 0000\ninput 11\ninput 00\nend\n";

// Register 0 is 0, 1 and 1, and e is 1, 1 and 0: the toggle in cycle 1 is seen one capture later.
const SEEN_LATER: &str = "stimulus 2 cycles 3\nstate 0000\ninput 11\ninput 11\ninput 00\nend\n";

// Register 0 is 0, 1 and 0: one capture later it shows the stale bit again, but falls there itself.
const TURNS_BACK: &str = "stimulus 2 cycles 3\nstate 0000\ninput 11\ninput 01\ninput 00\nend\n";

const LATE: Ask = Via(PinRef::Net(2));

const PASSED: Ask = Via(PinRef::Net(4));

const GATES: &[Row] = &[
    Row(&[], STAYS, HOLDS),
    Row(&[Hazard], STAYS, VIOLATED),
    Row(&[Hazard, To(2)], STAYS, HOLDS),
    Row(&[LATE], STAYS, VIOLATED),
    Row(&[PASSED, LATE], STAYS, HOLDS),
    Row(&[Multi(2), LATE], STAYS, HOLDS),
    Row(&[Multi(2), Hazard, LATE], STAYS, VIOLATED),
    Row(&[Multi(2)], STAYS, HOLDS),
    Row(&[Multi(2), Hazard], STAYS, VIOLATED),
    Row(&[Multi(1), Hazard], STAYS, HOLDS),
    Row(&[], FALLS, VIOLATED),
    Row(&[Multi(2)], FALLS, VIOLATED),
    Row(&[Multi(2), LATE], FALLS, HOLDS),
    Row(&[Rises], FALLS, VIOLATED),
    Row(&[Falls], FALLS, HOLDS),
    Row(&[], SEEN_LATER, HOLDS),
    Row(&[Lag(1)], SEEN_LATER, VIOLATED),
    Row(&[Lag(8), Rises], SEEN_LATER, VIOLATED),
    Row(&[Lag(8), Falls], SEEN_LATER, HOLDS),
    Row(&[Hazard, To(2)], SEEN_LATER, HOLDS),
    Row(&[Hazard, To(2), Lag(1)], SEEN_LATER, VIOLATED),
    Row(&[Hazard, To(2), Lag(1), Falls], SEEN_LATER, HOLDS),
    Row(&[Lag(1), Rises], TURNS_BACK, HOLDS),
    Row(&[Lag(1), Falls], TURNS_BACK, Ok(Replay::Violated(2))),
];

// Where e stays 1 register 1 captures 1 in both cycles: with a late start too, unless it is late on net 2 alone. Register
// 2 reads the same net, and is set by e.
#[test]
fn a_register_behind_gates_captures_what_is_late(rt: HostRuntime) -> Result<(), AllocError> {
    for row in GATES {
        check_row(&rt, rt.alloc(), GLITCHING_PAIR, row)?;
    }
    Ok(())
}
