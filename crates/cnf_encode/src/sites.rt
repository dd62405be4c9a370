//! Definitions by functions, listed where one of their keys is needed.
ghost use Rattle.std.specs.Prelude.{[], ◌∷◌, length, OnOk};
ghost use Rattle.cnf_encode.specs.CellLists.{AreWide};
ghost use Rattle.cnf_encode.specs.Listed.{IsClosed, Lists};
ghost use Rattle.cnf_encode.specs.Sited.{Suits, LiesBeside, plain_by, rails_by, site_by};

use crate::needed::{is_either_needed, is_needed};
use crate::tables::{Rails, push_plain, push_rails};
use frame_unroll::{Frames, Rail, Site};
use prime_cubes::Cell;
use proof_log::ClauseTable;
use query_model::Cube;
use std::alloc::{AllocError, Global};

/// The definition of a key by the cubes of a function of what is read on a rail.
fn list_plain(
    alloc: Global,
    frames: &Frames,
    rail: &Rail,
    cubes: &[Cube],
    clauses: &mut ClauseTable,
) -> Result<(), AllocError>
    requires wide { AreWide (length rail.now.reads) cubes.now }
    requires closed { IsClosed frames.now (plain_by rail.now cubes.now ∷ []) }
    ensures { OnOk result (Lists frames.now (plain_by rail.now cubes.now ∷ []) clauses.old clauses.new) }
{
    if !is_needed(frames, &rail.out) {
        return Ok(());
    }
    push_plain(alloc, frames, &rail.reads, rail.out, cubes, clauses)
}

/// The definition of the keys of both rails.
fn list_rails(
    alloc: Global,
    frames: &Frames,
    high: &Rail,
    low: &Rail,
    cell: &Cell,
    clauses: &mut ClauseTable,
) -> Result<(), AllocError>
    requires beside { LiesBeside high.now low.now }
    requires covering { AreWide (length high.now.reads) cell.now.covering }
    requires settling { AreWide (length high.now.reads) cell.now.settling }
    requires closed { IsClosed frames.now (rails_by high.now low.now cell.now ∷ []) }
    ensures { OnOk result (Lists frames.now (rails_by high.now low.now cell.now ∷ []) clauses.old clauses.new) }
{
    if !is_either_needed(frames, &high.out, &low.out) {
        return Ok(());
    }
    let rails = Rails {
        highs: &high.reads,
        lows: &low.reads,
        high: high.out,
        low: low.out,
    };
    push_rails(alloc, frames, &rails, cell, clauses)
}

/// The definition at a site by the cubes of its function.
pub fn list_site(
    alloc: Global,
    frames: &Frames,
    site: &Site,
    cell: &Cell,
    clauses: &mut ClauseTable,
) -> Result<(), AllocError>
    requires suits { Suits site.now cell.now }
    requires closed { IsClosed frames.now (site_by site.now cell.now ∷ []) }
    ensures { OnOk result (Lists frames.now (site_by site.now cell.now ∷ []) clauses.old clauses.new) }
{
    match &site.low {
        None => list_plain(alloc, frames, &site.high, cell.covering(), clauses),
        Some(low) => list_rails(alloc, frames, &site.high, low, cell, clauses),
    }
}
