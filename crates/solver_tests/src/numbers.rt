//! Literals, clauses and formulas, written as DIMACS writes them.
use proof_log::{Clause, ClauseTable, Formula, Lit};
use sdcv_base::Seq;
use std::alloc::{AllocError, Global};
use std::process::Abort;

/// Stops where a row of a table is wrong, and names its place.
pub fn sure(rt: &impl Abort, right: bool, place: usize) {
    assert!(rt; right, "row {place}");
}

/// A literal by its variable, negative for its complement.
pub fn lit(number: i32) -> Lit {
    let var = number.unsigned_abs();
    if var == 0 || var >= 1 << 31 {
        Lit::default()
    } else {
        Lit::new(var, number > 0)
    }
}

pub fn lits(alloc: Global, numbers: &[i32]) -> Result<Vec<Lit>, AllocError> {
    numbers.iter().map(|n| lit(*n)).collect(alloc)
}

pub fn clause(alloc: Global, numbers: &[i32]) -> Result<Clause, AllocError> {
    Ok(Clause {
        lits: Seq::from_vec(lits(alloc, numbers)?),
    })
}

pub fn push_clause(
    alloc: Global,
    list: &mut ClauseTable,
    numbers: &[i32],
) -> Result<(), AllocError> {
    list.push(&lits(alloc, numbers)?)
}

pub fn formula(alloc: Global, vars: u32, clauses: &[&[i32]]) -> Result<Formula, AllocError> {
    let mut list = ClauseTable::new(alloc);
    for numbers in clauses {
        push_clause(alloc, &mut list, numbers)?;
    }
    Ok(Formula {
        vars,
        clauses: list,
    })
}
