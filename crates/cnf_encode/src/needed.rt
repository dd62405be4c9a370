//! Definitions of few literals, listed where their key is needed.
ghost use Rattle.std.specs.Prelude.{◌≡◌, [], ◌∷◌, OnOk};
ghost use Rattle.std.specs.List.{list_any};
ghost use Rattle.query_model.specs.Defined.{unit, exclusive, both};
ghost use Rattle.query_model.specs.Formula.{has_key};
ghost use Rattle.frame_unroll.specs.Pairs.{defined_by};
ghost use Rattle.cnf_encode.specs.Listed.{IsClosed, Lists};

use crate::clauses::{push_both, push_exclusive, push_unit};
use frame_unroll::{Frames, Pair};
use proof_log::ClauseTable;
use query_model::{Key, KeyLit};
use std::alloc::{AllocError, Global};

/// Whether the key is one of those that are needed.
pub fn is_needed(frames: &Frames, key: &Key) -> bool
    ensures { result ≡ has_key frames.now key.now }
{
    frames.number(key).is_some()
}

/// Whether one of two keys is needed.
pub fn is_either_needed(frames: &Frames, a: &Key, b: &Key) -> bool
    ensures { result ≡ list_any (has_key frames.now) (a.now ∷ b.now ∷ []) }
{
    is_needed(frames, a) || is_needed(frames, b)
}

/// That a key has a value, where the key is needed.
pub fn list_unit(
    alloc: Global,
    frames: &Frames,
    value: bool,
    out: Key,
    clauses: &mut ClauseTable,
) -> Result<(), AllocError>
    requires closed { IsClosed frames.now (unit value out ∷ []) }
    ensures { OnOk result (Lists frames.now (unit value out ∷ []) clauses.old clauses.new) }
{
    if !is_needed(frames, &out) {
        return Ok(());
    }
    push_unit(alloc, frames, value, out, clauses)
}

/// That a key says that two literals differ, where the key is needed.
fn list_exclusive(
    alloc: Global,
    frames: &Frames,
    z: Key,
    x: KeyLit,
    y: KeyLit,
    clauses: &mut ClauseTable,
) -> Result<(), AllocError>
    requires closed { IsClosed frames.now (exclusive z x y ∷ []) }
    ensures { OnOk result (Lists frames.now (exclusive z x y ∷ []) clauses.old clauses.new) }
{
    if !is_needed(frames, &z) {
        return Ok(());
    }
    push_exclusive(alloc, frames, z, x, y, clauses)
}

/// That a key says that two literals are true, where the key is needed.
fn list_both(
    alloc: Global,
    frames: &Frames,
    z: Key,
    x: KeyLit,
    y: KeyLit,
    clauses: &mut ClauseTable,
) -> Result<(), AllocError>
    requires closed { IsClosed frames.now (both z x y ∷ []) }
    ensures { OnOk result (Lists frames.now (both z x y ∷ []) clauses.old clauses.new) }
{
    if !is_needed(frames, &z) {
        return Ok(());
    }
    push_both(alloc, frames, z, x, y, clauses)
}

/// The definition by a pair, where its key is needed.
pub fn list_pair(
    alloc: Global,
    frames: &Frames,
    pair: Pair,
    clauses: &mut ClauseTable,
) -> Result<(), AllocError>
    requires closed { IsClosed frames.now (defined_by pair ∷ []) }
    ensures { OnOk result (Lists frames.now (defined_by pair ∷ []) clauses.old clauses.new) }
{
    if pair.both {
        return list_both(alloc, frames, pair.out, pair.first, pair.second, clauses);
    }
    list_exclusive(alloc, frames, pair.out, pair.first, pair.second, clauses)
}
