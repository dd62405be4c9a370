//! The places, in a list of points, of what keys are about, cycle by cycle.
ghost use Rattle.std.specs.Prelude.{◌≡◌, ◌<◌, ℕ, List, [], map, replicate, All, IfOk, OnOk};
ghost use Rattle.cnf_encode.specs.Coned.{AreRows};
ghost use Rattle.cnf_encode.specs.Placed.{StandOnce, ArePlaces, ArePushed, IsInOrder, AreInOrder, place_of, with_place};

use frame_unroll::Frames;
use query_model::Key;
use sdcv_base::Seq;
use std::alloc::{AllocError, Global};

/// For each cycle the places of the points that keys are about in it, ascending, by a table of the places.
///
/// It takes the time that the keys take, and that of sorting each row.
pub fn point_rows(
    alloc: Global,
    frames: &Frames,
    places: &Seq<Option<usize>>,
    cycles: usize,
) -> Result<Seq<Seq<usize>>, AllocError>
    ensures { IfOk result (λ rows. (points : List ℕ) (size : ℕ) → ArePlaces points size places.now → AreRows frames.now points cycles rows) }
{
    let found = by_cycle(alloc, frames, places, cycles)?;
    all_in_order(alloc, &found)
}

/// At which place each point stands.
pub fn places_by_point(
    alloc: Global,
    points: &[usize],
    size: usize,
) -> Result<Seq<Option<usize>>, AllocError>
    requires below { All (λ p. p < size) points.now }
    requires once { StandOnce points.now }
    ensures { IfOk result (ArePlaces points.now size) }
{
    let none: Option<usize> = None;
    let mut places = Seq::filled(alloc, none, size)?;
    for k in 0..points.len() {
        places.put(points[k], Some(k));
    }
    Ok(places)
}

/// The same numbers, each once, ascending.
pub fn in_order(alloc: Global, found: &[usize]) -> Result<Seq<usize>, AllocError>
    ensures { IfOk result (IsInOrder found.now) }
{
    let mut row = Vec::from_slice(alloc, found)?;
    row.sort_unstable();
    row.dedup();
    Ok(Seq::from_vec(row))
}

/// The places of what the keys are about, cycle by cycle, in whatever order.
fn by_cycle(
    alloc: Global,
    frames: &Frames,
    places: &Seq<Option<usize>>,
    cycles: usize,
) -> Result<Vec<Vec<usize>>, AllocError>
    ensures { IfOk result (λ rows. ArePushed frames.now places.now cycles (map (λ row. row.items) rows.items)) }
{
    let mut rows = empty_rows(alloc, cycles)?;
    for before in 0..frames.vars() {
        if let Some(key) = frames.key(before + 1) {
            push_key(places, &key, &mut rows)?;
        }
    }
    Ok(rows)
}

fn empty_rows(alloc: Global, cycles: usize) -> Result<Vec<Vec<usize>>, AllocError>
    ensures { IfOk result (λ rows. map (λ row. row.items) rows.items ≡ replicate cycles []) }
{
    let mut rows = Vec::new(alloc);
    for _ in 0..cycles {
        rows.push(Vec::new(alloc))?;
    }
    Ok(rows)
}

/// Adds the place of what the key is about to the row of its cycle.
fn push_key(
    places: &Seq<Option<usize>>,
    key: &Key,
    rows: &mut Vec<Vec<usize>>,
) -> Result<(), AllocError>
    ensures { OnOk result (map (λ r. r.items) rows.new.items ≡ with_place (map (λ r. r.items) rows.old.items) key.now.cycle
        (place_of places.now key.now.point)) }
{
    if key.point < places.len() && key.cycle < rows.len() {
        if let Some(place) = places.at(key.point) {
            rows[key.cycle].push(place)?;
        }
    }
    Ok(())
}

fn all_in_order(alloc: Global, found: &[Vec<usize>]) -> Result<Seq<Seq<usize>>, AllocError>
    ensures { IfOk result (AreInOrder (map (λ row. row.items) found.now)) }
{
    let mut rows = Seq::new(alloc);
    for row in found {
        rows.push(in_order(alloc, row)?)?;
    }
    Ok(rows)
}
