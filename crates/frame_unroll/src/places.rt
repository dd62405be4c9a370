//! The places that count.
ghost use Rattle.std.specs.Prelude.{◌≡◌, ◌<◌, ◌≤◌, ℕ, false, slice_index_or, map, IfOk};
ghost use Rattle.net_model.specs.Form.{value, IsOver};
ghost use Rattle.net_model.specs.Args.{arg_at};
ghost use Rattle.query_model.specs.Keys.{below};
ghost use Rattle.query_model.specs.Tables.{row_bits};
ghost use Rattle.frame_unroll.specs.Counting as counting;
ghost use Rattle.frame_unroll.specs.Counting.{AreCounts, depends};

use net_model::{Args, Func, Value};
use query_model::Coding;
use sdcv_base::Seq;
use std::alloc::{AllocError, Global};

/// Which places count, place 0 first: those that some cube of the coding fixes, so that their keys stand in the clauses.
///
/// By rows each place does. By prime cubes those do on which the function depends, whether or not it mentions others.
pub fn counts(
    alloc: Global,
    func: &Func,
    places: usize,
    coding: Coding,
) -> Result<Seq<bool>, AllocError>
    requires few { places ≤ 7 }
    requires over { IsOver places func.now }
    ensures { IfOk result (AreCounts coding (value func.now) places) }
{
    match coding {
        Coding::Rows => Seq::filled(alloc, true, places),
        Coding::Primes => dependences(alloc, func, places),
    }
}

/// The places on which the function depends.
fn dependences(alloc: Global, func: &Func, places: usize) -> Result<Seq<bool>, AllocError>
    requires few { places ≤ 7 }
    requires over { IsOver places func.now }
    ensures { IfOk result (λ marks. marks ≡ map (depends (value func.now) places) (below places)) }
{
    let mut marks = Seq::new(alloc);
    for place in 0..places {
        marks.push(depends(func, places, place))?;
    }
    Ok(marks)
}

/// Whether in some row the function's value changes with the bit at the place alone.
fn depends(func: &Func, places: usize, place: usize) -> bool
    requires few { places ≤ 7 }
    requires over { IsOver places func.now }
    requires place { place < places }
    ensures { result ≡ depends (value func.now) places place }
{
    for number in 0..1usize << places {
        if changes(func, places, number, place) {
            return true;
        }
    }
    false
}

/// Whether the function's value in the row of this number changes with the bit at the place alone.
fn changes(func: &Func, places: usize, number: usize, place: usize) -> bool
    requires few { places ≤ 7 }
    requires over { IsOver places func.now }
    requires place { place < places }
    ensures { result ≡ counting.changes (value func.now) place (row_bits places number) }
{
    let bits = row(places, number);
    let mut other = bits;
    other.set(place, !bits.at(place));
    bool::apply(func, &bits) ^ bool::apply(func, &other)
}

/// The bits of a number at the first places, the lowest first, and 0 at the others.
fn row(places: usize, number: usize) -> Args<bool>
    requires few { places ≤ 7 }
    ensures { (i : ℕ) → i < 7 → arg_at result i ≡ slice_index_or (row_bits places number) i false }
{
    let mut bits = Args::of(false);
    for i in 0..places {
        bits.set(i, (number >> i) % 2 == 1);
    }
    bits
}
