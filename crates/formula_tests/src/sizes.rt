//! How many variables and clauses a formula has in either coding.
use crate::tests::{problem_of, sound_case};
use net_model::Phase::Step;
use net_samples::Ask::Hazard;
use net_samples::Form::{And, Choice, One, Pin, Xor};
use net_samples::Out::Q;
use net_samples::Part::{Drives, Holds, Nets};
use net_samples::{Ask, Controls, Part};
use query_model::Coding;
use std::alloc::{AllocError, Global};
use std::process::Abort;

const FREE: Controls = Controls(None, None, false);

// Two flops, and between them the gate that stands first: register 0, which takes the input on net 0, shows its bit on net
// 2, and register 1, which takes net 3, on net 4.
const FROM_INPUT: Part = Holds(Pin(0), FREE, &[0], &[Q(2)]);

const FROM_GATE: Part = Holds(Pin(0), FREE, &[3], &[Q(4)]);

// A B + A !B, where B is an input.
const FIRST: &[Part] = &[
    Nets(5, &[0, 1]),
    Drives(Choice(0, 0, 1), &[2, 1], 3),
    FROM_INPUT,
    FROM_GATE,
];

// A ^ A, of one pin.
const NEVER: &[Part] = &[
    Nets(5, &[0, 1]),
    Drives(Xor(0, 0), &[2], 3),
    FROM_INPUT,
    FROM_GATE,
];

// A B, and next states D Q + D !Q, which mention the register's own bit and do not depend on it.
const MENTIONS: &[Part] = &[
    Nets(5, &[0, 1]),
    Drives(And(0, 1), &[2, 1], 3),
    Holds(Choice(0, 0, 1), FREE, &[0], &[Q(2)]),
    Holds(Choice(0, 0, 1), FREE, &[3], &[Q(4)]),
];

// A ^ B, where both pins read one net.
const ONE_NET: &[Part] = &[
    Nets(5, &[0, 1]),
    Drives(Xor(0, 1), &[2, 2], 3),
    FROM_INPUT,
    FROM_GATE,
];

const BOTH: &[Part] = &[
    Nets(5, &[0, 1]),
    Drives(And(0, 1), &[2, 1], 3),
    FROM_INPUT,
    FROM_GATE,
];

// A B, where B is tied to 1.
const TIED: &[Part] = &[
    Nets(5, &[0]),
    Drives(One, &[], 1),
    Drives(And(0, 1), &[2, 1], 3),
    FROM_INPUT,
    FROM_GATE,
];

// A B + !A B, where B is an input.
const SECOND: &[Part] = &[
    Nets(5, &[0, 1]),
    Drives(Choice(1, 1, 0), &[2, 1], 3),
    FROM_INPUT,
    FROM_GATE,
];

/// A design, a query about it, and how many variables and clauses its formula has by rows and by prime cubes.
struct Row(&'static [Part], &'static [Ask], (u32, usize), (u32, usize));

// Counted by hand.
const ROWS: &[Row] = &[
    // B has no key.
    Row(FIRST, &[], (11, 25), (10, 21)),
    // One cube, which fixes nothing.
    Row(NEVER, &[], (10, 21), (10, 19)),
    // The own bits are of no account.
    Row(MENTIONS, &[], (15, 39), (11, 23)),
    // Clauses with complements are left out, keys stay.
    Row(ONE_NET, &[], (10, 21), (10, 21)),
    Row(BOTH, &[], (11, 25), (11, 23)),
    Row(TIED, &[], (11, 26), (11, 24)),
    Row(SECOND, &[Hazard], (13, 28), (11, 20)),
];

/// How many variables and clauses the step query of depth 0 has.
fn size_of(
    rt: &impl Abort,
    alloc: Global,
    row: &Row,
    coding: Coding,
) -> Result<(u32, usize), AllocError> {
    let case = sound_case(rt, alloc, row.0, row.1)?;
    let problem = problem_of(rt, alloc, &case, coding, Step, 0)?;
    Ok((problem.formula.vars, problem.formula.clauses.len()))
}

#[test]
fn formulas_are_as_large_as_the_cubes_say(rt: HostRuntime) -> Result<(), AllocError> {
    for (place, row) in ROWS.iter().enumerate() {
        let by_rows = size_of(&rt, rt.alloc(), row, Coding::Rows)?;
        assert_eq!(rt; by_rows, row.2, "row {place}");
        let by_primes = size_of(&rt, rt.alloc(), row, Coding::Primes)?;
        assert_eq!(rt; by_primes, row.3, "row {place}");
    }
    Ok(())
}
