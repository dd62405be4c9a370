//! Clauses over keys, added to a list in normal form: single ones, and those by which two literals define a key.
ghost use Rattle.std.specs.Prelude.{◌≡◌, [], ◌∷◌, OnOk};
ghost use Rattle.query_model.specs.Keys.{lit, opposite};
ghost use Rattle.query_model.specs.Defined.{unit, exclusive, both};
ghost use Rattle.cnf_encode.specs.Coded.{HasKeys, Adds, AddsNormals};

use crate::codes::codes;
use frame_unroll::Frames;
use proof_log::{ClauseTable, Lit};
use query_model::{Key, KeyLit};
use std::alloc::{AllocError, Global};

/// Adds the normal form of a clause, if it has one.
pub fn push_clause(
    alloc: Global,
    frames: &Frames,
    lits: &[KeyLit],
    clauses: &mut ClauseTable,
) -> Result<(), AllocError>
    requires { HasKeys frames.now (lits.now ∷ []) }
    ensures { OnOk result (Adds frames.now (lits.now ∷ []) clauses.old clauses.new) }
{
    let coded = codes(alloc, frames, lits)?;
    push_normal(coded.as_slice(), clauses)
}

/// Adds the normal form of a clause of literals, if it has one: without repeats, and nothing where two are complements.
pub fn push_normal(lits: &[Lit], clauses: &mut ClauseTable) -> Result<(), AllocError>
    ensures { OnOk result (AddsNormals (lits.now ∷ []) clauses.old clauses.new) }
{
    clauses.push_normal(lits)?;
    Ok(())
}

/// Adds the clause by which a key has a value.
pub fn push_unit(
    alloc: Global,
    frames: &Frames,
    value: bool,
    out: Key,
    clauses: &mut ClauseTable,
) -> Result<(), AllocError>
    requires { HasKeys frames.now (unit value out).clauses }
    ensures { OnOk result (Adds frames.now (unit value out).clauses clauses.old clauses.new) }
{
    push_clause(alloc, frames, &[lit(value, out)], clauses)
}

/// Adds the clauses by which a key says that two literals differ.
pub fn push_exclusive(
    alloc: Global,
    frames: &Frames,
    z: Key,
    x: KeyLit,
    y: KeyLit,
    clauses: &mut ClauseTable,
) -> Result<(), AllocError>
    requires { HasKeys frames.now (exclusive z x y).clauses }
    ensures { OnOk result (Adds frames.now (exclusive z x y).clauses clauses.old clauses.new) }
{
    push_clause(alloc, frames, &[lit(false, z), x, y], clauses)?;
    push_clause(
        alloc,
        frames,
        &[lit(false, z), opposite(x), opposite(y)],
        clauses,
    )?;
    push_clause(alloc, frames, &[lit(true, z), opposite(x), y], clauses)?;
    push_clause(alloc, frames, &[lit(true, z), x, opposite(y)], clauses)
}

/// Adds the clauses by which a key says that two literals are true.
pub fn push_both(
    alloc: Global,
    frames: &Frames,
    z: Key,
    x: KeyLit,
    y: KeyLit,
    clauses: &mut ClauseTable,
) -> Result<(), AllocError>
    requires { HasKeys frames.now (both z x y).clauses }
    ensures { OnOk result (Adds frames.now (both z x y).clauses clauses.old clauses.new) }
{
    push_clause(alloc, frames, &[lit(false, z), x], clauses)?;
    push_clause(alloc, frames, &[lit(false, z), y], clauses)?;
    push_clause(
        alloc,
        frames,
        &[lit(true, z), opposite(x), opposite(y)],
        clauses,
    )
}

/// The literal that is true where the key has this value.
pub fn lit(positive: bool, key: Key) -> KeyLit
    ensures { result ≡ lit positive key }
{
    KeyLit { key, positive }
}

/// The complement.
fn opposite(l: KeyLit) -> KeyLit
    ensures { result ≡ opposite l }
{
    KeyLit {
        key: l.key,
        positive: !l.positive,
    }
}
