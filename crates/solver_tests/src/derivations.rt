//! Derivations that refute, and the first faults of others, judged by hand.
use crate::numbers::{clause, formula, sure};
use proof_log::{Clause, DerivStep, Derivation, Formula};
use rup_check::{CheckFault, check};
use sdcv_base::Seq;
use std::alloc::{AllocError, Global};
use std::process::Abort;

fn step(alloc: Global, clause: Clause, hints: &[u64]) -> Result<DerivStep, AllocError> {
    let hints = Seq::from_vec(Vec::from_slice(alloc, hints)?);
    Ok(DerivStep { clause, hints })
}

fn push_step(
    alloc: Global,
    list: &mut Seq<DerivStep>,
    numbers: &[i32],
    hints: &[u64],
) -> Result<(), AllocError> {
    list.push(step(alloc, clause(alloc, numbers)?, hints)?)?;
    Ok(())
}

fn derivation(alloc: Global, steps: &[(&[i32], &[u64])]) -> Result<Derivation, AllocError> {
    let mut list = Seq::new(alloc);
    for (numbers, hints) in steps {
        push_step(alloc, &mut list, numbers, hints)?;
    }
    Ok(Derivation { steps: list })
}

/// A derivation, by the numbers of its steps' clauses and their hints, and what the checker says of it.
struct Judged(
    &'static [(&'static [i32], &'static [u64])],
    Result<(), CheckFault>,
);

const FOUR: &[&[i32]] = &[&[1, 2], &[1, -2], &[-1, 2], &[-1, -2]];

// Of both variables in all four signs. Judged by hand.
const OF_FOUR: &[Judged] = &[
    Judged(&[(&[1], &[1, 2]), (&[], &[5, 3, 4])], Ok(())),
    Judged(
        &[(&[1], &[1]), (&[], &[5, 3, 4])],
        Err(CheckFault::NoConflict(1)),
    ),
    Judged(
        &[(&[1], &[5]), (&[], &[5, 3, 4])],
        Err(CheckFault::HintMissing(1)),
    ),
    Judged(&[(&[1], &[0])], Err(CheckFault::HintMissing(1))),
    Judged(
        &[(&[1], &[3, 1, 2]), (&[], &[5, 3, 4])],
        Err(CheckFault::HintNotUnit(1, 1)),
    ),
    Judged(&[(&[1], &[1, 2, 3])], Err(CheckFault::HintNotUnit(1, 3))),
    Judged(&[(&[1], &[1, 2, 9])], Err(CheckFault::HintMissing(1))),
    Judged(&[(&[1], &[1, 2])], Err(CheckFault::NotEmpty)),
    Judged(&[], Err(CheckFault::NotEmpty)),
    Judged(&[(&[], &[]), (&[], &[5])], Err(CheckFault::NoConflict(1))),
];

const HIGH: i32 = 2147483647;

// Clauses of any form are checked: repeated and complementary literals, and variables above the
// formula's, which take no room by their size. Judged by hand.
const ONE: &[&[i32]] = &[&[1, 1], &[-1]];

const OF_ONE: &[Judged] = &[
    Judged(&[(&[], &[2, 1])], Ok(())),
    Judged(&[(&[], &[1, 2])], Err(CheckFault::HintNotUnit(1, 1))),
    Judged(
        &[(&[HIGH, 1], &[2, 1]), (&[], &[2, 1])],
        Err(CheckFault::HintNotUnit(1, 1)),
    ),
    Judged(
        &[
            (&[HIGH], &[2, 1]),
            (&[1, -1, HIGH], &[3]),
            (&[-HIGH, HIGH], &[3]),
            (&[], &[2, 1]),
        ],
        Ok(()),
    ),
];

fn is_judged(alloc: Global, formula: &Formula, row: &Judged) -> Result<bool, AllocError> {
    let derivation = derivation(alloc, row.0)?;
    Ok(check(alloc, formula, &derivation) == row.1)
}

fn judge(
    rt: &impl Abort,
    alloc: Global,
    formula: &Formula,
    rows: &[Judged],
) -> Result<(), AllocError> {
    for (place, row) in rows.iter().enumerate() {
        sure(rt, is_judged(alloc, formula, row)?, place);
    }
    Ok(())
}

fn judge_over(
    rt: &impl Abort,
    alloc: Global,
    vars: u32,
    clauses: &[&[i32]],
    rows: &[Judged],
) -> Result<(), AllocError> {
    let formula = formula(alloc, vars, clauses)?;
    judge(rt, alloc, &formula, rows)
}

#[test]
fn the_first_fault_is_named(rt: HostRuntime) -> Result<(), AllocError> {
    judge_over(&rt, rt.alloc(), 2, FOUR, OF_FOUR)?;
    judge_over(&rt, rt.alloc(), 1, ONE, OF_ONE)
}
