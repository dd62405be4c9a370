//! The clauses by which a function of what its places read defines a key, or the two keys of its rails.
ghost use Rattle.std.specs.Prelude.{◌≡◌, [], ◌∷◌, ◌++◌, true, map, length, IfOk, OnOk, if◌then◌else◌};
ghost use Rattle.query_model.specs.Keys.{lit};
ghost use Rattle.query_model.specs.Tables.{plain_clauses};
ghost use Rattle.cnf_encode.specs.CellLists.{AreWide};
ghost use Rattle.cnf_encode.specs.Coded.{HasKeys, Adds, AddsNormals};
ghost use Rattle.cnf_encode.specs.Chosen.{chosen};
ghost use Rattle.cnf_encode.specs.Railed.{may_be_so, must_be_so, rail_clauses, AreRailCodes};

use crate::chosen_lits::{complements, cube_lits};
use crate::clauses::{lit, push_normal};
use crate::codes::{known_code, known_codes, signed};
use frame_unroll::Frames;
use net_model::Tern;
use prime_cubes::Cell;
use proof_log::{ClauseTable, Lit};
use query_model::{Cube, Key, KeyLit};
use sdcv_base::Seq;
use smallvec::SmallVec;
use std::alloc::{AllocError, Global};

/// What the places of a function may be on each rail, and the keys by which its output may be 1 and may be 0.
#[derive(Drop)]
pub struct Rails<'a> {
    pub highs: &'a Seq<KeyLit>,
    pub lows: &'a Seq<KeyLit>,
    pub high: Key,
    pub low: Key,
}

/// Adds a clause for each cube: some place that it fixes has the other bit, or the output has the cube's value.
pub fn push_plain(
    alloc: Global,
    frames: &Frames,
    reads: &Seq<KeyLit>,
    out: Key,
    cubes: &[Cube],
    clauses: &mut ClauseTable,
) -> Result<(), AllocError>
    requires wide { AreWide (length reads.now) cubes.now }
    requires keys { HasKeys frames.now (plain_clauses reads.now (lit true out) cubes.now) }
    ensures { OnOk result (Adds frames.now (plain_clauses reads.now (lit true out) cubes.now) clauses.old clauses.new) }
{
    let zeros = known_codes(alloc, frames, reads.as_slice())?;
    let ones = complements(alloc, zeros.as_slice())?;
    let defined = known_code(frames, &lit(true, out));
    for cube in cubes {
        let value = signed(defined, cube.value);
        push_cube(
            alloc,
            zeros.as_slice(),
            ones.as_slice(),
            cube.fixed.as_slice(),
            value,
            clauses,
        )?;
    }
    Ok(())
}

/// The literals of the numbers of what the places of a function may be on each rail, and of the two keys.
#[derive(Drop)]
pub struct RailCodes {
    pub highs: SmallVec<Lit, 8>,
    pub lows: SmallVec<Lit, 8>,
    pub high: Lit,
    pub low: Lit,
}

/// These literals. Each key is looked up once.
fn rail_codes(alloc: Global, frames: &Frames, rails: &Rails) -> Result<RailCodes, AllocError>
    ensures { IfOk result (AreRailCodes frames.now rails.now) }
{
    Ok(RailCodes {
        highs: known_codes(alloc, frames, rails.highs.as_slice())?,
        lows: known_codes(alloc, frames, rails.lows.as_slice())?,
        high: known_code(frames, &lit(true, rails.high)),
        low: known_code(frames, &lit(true, rails.low)),
    })
}

/// Adds the clauses by which an output may be 1 and may be 0: for each cube of the first kind some place that it fixes cannot
/// have its bit, or the output may have the cube's value; for each of the second some such place may have the other bit, or the
/// output has the cube's value alone.
pub fn push_rails(
    alloc: Global,
    frames: &Frames,
    rails: &Rails,
    cell: &Cell,
    clauses: &mut ClauseTable,
) -> Result<(), AllocError>
    requires long { length rails.now.lows.now ≡ length rails.now.highs.now }
    requires covering { AreWide (length rails.now.highs.now) cell.now.covering }
    requires settling { AreWide (length rails.now.highs.now) cell.now.settling }
    requires keys { HasKeys frames.now (rail_clauses rails.now cell.now) }
    ensures { OnOk result (Adds frames.now (rail_clauses rails.now cell.now) clauses.old clauses.new) }
{
    let codes = rail_codes(alloc, frames, rails)?;
    push_may(alloc, frames, rails, &codes, cell.covering(), clauses)?;
    push_must(alloc, frames, rails, &codes, cell.settling(), clauses)
}

/// Adds the clauses of what the output may be.
fn push_may(
    alloc: Global,
    frames: &Frames,
    rails: &Rails,
    codes: &RailCodes,
    cubes: &[Cube],
    clauses: &mut ClauseTable,
) -> Result<(), AllocError>
    requires long { length rails.now.lows.now ≡ length rails.now.highs.now }
    requires codes { AreRailCodes frames.now rails.now codes.now }
    requires wide { AreWide (length rails.now.highs.now) cubes.now }
    requires keys { HasKeys frames.now (map (may_be_so rails.now) cubes.now) }
    ensures { OnOk result (Adds frames.now (map (may_be_so rails.now) cubes.now) clauses.old clauses.new) }
{
    let zeros = complements(alloc, codes.lows.as_slice())?;
    let ones = complements(alloc, codes.highs.as_slice())?;
    for cube in cubes {
        let may = rail_of(cube.value, codes);
        push_cube(
            alloc,
            zeros.as_slice(),
            ones.as_slice(),
            cube.fixed.as_slice(),
            may,
            clauses,
        )?;
    }
    Ok(())
}

/// Adds the clauses of what the output must be.
fn push_must(
    alloc: Global,
    frames: &Frames,
    rails: &Rails,
    codes: &RailCodes,
    cubes: &[Cube],
    clauses: &mut ClauseTable,
) -> Result<(), AllocError>
    requires long { length rails.now.lows.now ≡ length rails.now.highs.now }
    requires codes { AreRailCodes frames.now rails.now codes.now }
    requires wide { AreWide (length rails.now.highs.now) cubes.now }
    requires keys { HasKeys frames.now (map (must_be_so rails.now) cubes.now) }
    ensures { OnOk result (Adds frames.now (map (must_be_so rails.now) cubes.now) clauses.old clauses.new) }
{
    for cube in cubes {
        let cannot = rail_of(!cube.value, codes).negated();
        push_cube(
            alloc,
            codes.highs.as_slice(),
            codes.lows.as_slice(),
            cube.fixed.as_slice(),
            cannot,
            clauses,
        )?;
    }
    Ok(())
}

/// The literal of the rail that says that the output may have this value.
fn rail_of(value: bool, codes: &RailCodes) -> Lit
    ensures { result ≡ (if value then codes.now.high else codes.now.low) }
{
    if value { codes.high } else { codes.low }
}

/// Adds the clause of a cube: some place that is fixed has the other bit, or the last literal is true.
pub fn push_cube(
    alloc: Global,
    zeros: &[Lit],
    ones: &[Lit],
    fixed: &[Tern],
    last: Lit,
    clauses: &mut ClauseTable,
) -> Result<(), AllocError>
    requires ones { length ones.now ≡ length zeros.now }
    requires fixed { length fixed.now ≡ length zeros.now }
    ensures { OnOk result (AddsNormals ((chosen zeros.now ones.now fixed.now ++ last ∷ []) ∷ []) clauses.old clauses.new) }
{
    let mut lits = cube_lits(alloc, zeros, ones, fixed)?;
    lits.push(last)?;
    push_normal(lits.as_slice(), clauses)
}
