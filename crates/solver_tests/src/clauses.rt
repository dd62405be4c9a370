//! Clauses and formulas in normal form, and what a clause does, judged by hand.
use crate::numbers::{formula, lit, lits, sure};
use proof_log::{Assignment, Clause, Effect, Lit, LitSet};
use std::alloc::{AllocError, Global};
use std::process::Abort;

// Sorted by hand: by variable, each literal once, nothing where two are complements.
const NORMAL: &[(&[i32], Option<&[i32]>)] = &[
    (&[], Some(&[])),
    (&[3, -1, 2], Some(&[-1, 2, 3])),
    (&[2, -1, 2, -1], Some(&[-1, 2])),
    (&[2, 1, -2], None),
    (&[-1, 1], None),
];

fn normal(alloc: Global, given: &[i32]) -> Result<Option<Clause>, AllocError> {
    let given = lits(alloc, given)?;
    Clause::normal(alloc, &given)
}

fn are(alloc: Global, clause: &Clause, want: &[i32]) -> Result<bool, AllocError> {
    let want = lits(alloc, want)?;
    Ok(clause.as_slice() == want.as_slice())
}

// Whether the copy of a clause has these literals.
fn is_copied(alloc: Global, clause: &Clause, want: &[i32]) -> Result<bool, AllocError> {
    let copy = clause.copy(alloc)?;
    are(alloc, &copy, want)
}

fn is_normal_form(alloc: Global, given: &[i32], want: Option<&[i32]>) -> Result<bool, AllocError> {
    let found = normal(alloc, given)?;
    match (&found, want) {
        (Some(clause), Some(want)) => is_copied(alloc, clause, want),
        (None, None) => Ok(true),
        _ => Ok(false),
    }
}

#[test]
fn a_clause_has_each_variable_once(rt: HostRuntime) -> Result<(), AllocError> {
    for (place, (given, want)) in NORMAL.iter().enumerate() {
        sure(&rt, is_normal_form(rt.alloc(), given, *want)?, place);
    }
    Ok(())
}

// Clauses in normal form ascend by variable and name none above the formula's.
const FORMULAS: &[(u32, &[i32], bool)] = &[
    (0, &[], true),
    (2, &[-1, 2], true),
    (1, &[-1, 2], false),
    (2, &[2, -1], false),
    (2, &[1, 1], false),
    (2, &[1, -1], false),
];

fn is_told_normal(alloc: Global, vars: u32, numbers: &[i32]) -> Result<bool, AllocError> {
    let formula = formula(alloc, vars, &[numbers])?;
    Ok(formula.is_normal())
}

#[test]
fn a_formula_is_told_to_be_normal(rt: HostRuntime) -> Result<(), AllocError> {
    for (place, (vars, numbers, want)) in FORMULAS.iter().enumerate() {
        let told = is_told_normal(rt.alloc(), *vars, numbers)?;
        sure(&rt, told == *want, place);
    }
    Ok(())
}

/// What a clause does, with a literal by its number.
enum Does {
    Fails,
    Sets(i32),
    Neither,
}

// With 1 and -2 set and 3 unset.
const EFFECTS: &[(&[i32], Does)] = &[
    (&[], Does::Fails),
    (&[-1, 2], Does::Fails),
    (&[-1, 3], Does::Sets(3)),
    (&[-1, 2, -3], Does::Sets(-3)),
    (&[1], Does::Neither),
    (&[1, 3], Does::Neither),
    (&[3, 4], Does::Neither),
];

fn effect_of(does: &Does) -> Effect {
    match does {
        Does::Fails => Effect::Falsified,
        Does::Sets(number) => Effect::Sets(lit(*number)),
        Does::Neither => Effect::Neither,
    }
}

fn set_unset(rt: &impl Abort, set: &mut Assignment, l: Lit) {
    assert!(rt; l.var() <= set.vars() && !set.is_set(l) && !set.is_set(l.negated()));
    set.set(l);
}

/// An assignment of three variables, with 1 and -2 set.
fn two_set(rt: &impl Abort, alloc: Global) -> Result<Assignment, AllocError> {
    let mut set = Assignment::new(alloc, 3)?;
    set_unset(rt, &mut set, lit(1));
    set_unset(rt, &mut set, lit(-2));
    Ok(set)
}

fn has_effect(
    alloc: Global,
    set: &Assignment,
    clause: &[i32],
    does: &Does,
) -> Result<bool, AllocError> {
    let clause = lits(alloc, clause)?;
    Ok(set.effect(&clause) == effect_of(does))
}

fn judge_effects(rt: &impl Abort, alloc: Global, set: &Assignment) -> Result<(), AllocError> {
    for (place, (clause, does)) in EFFECTS.iter().enumerate() {
        sure(rt, has_effect(alloc, set, clause, does)?, place);
    }
    Ok(())
}

#[test]
fn a_clause_is_false_unit_or_neither(rt: HostRuntime) -> Result<(), AllocError> {
    let set = two_set(&rt, rt.alloc())?;
    judge_effects(&rt, rt.alloc(), &set)
}

#[test]
fn a_shorter_assignment_keeps_the_first_literals(rt: HostRuntime) -> Result<(), AllocError> {
    let mut set = two_set(&rt, rt.alloc())?;
    set.truncate(1);
    assert!(rt; !set.is_set(lit(-2)) && set.is_set(lit(1)));
    Ok(())
}
