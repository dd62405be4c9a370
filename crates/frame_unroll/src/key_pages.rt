//! Pages of numbers, by which keys are found.
ghost use Rattle.std.specs.Prelude.{◌≡◌, ◌<◌, ◌≤◌, ◌+◌, ◌*◌, ◌↔◌, ℕ, IsTrue, length, slice_index, is_ok, if◌then◌else◌, OnOk};
ghost use Rattle.query_model.specs.declared.keys.Key.{Key as KeyRecord};
ghost use Rattle.frame_unroll.specs.Found.{IsSmall};
ghost use Rattle.frame_unroll.specs.KeySets.{page_place, slot, number_at, IsBlank, ArePages};

use query_model::Key;
use std::alloc::{AllocError, Global};

/// How many points a page has.
pub const PAGE: usize = 128;

/// Whether a key has a page: each that a query may need has.
pub fn is_small(key: Key) -> bool
    ensures { IsTrue result ↔ IsSmall key }
{
    key.cycle <= 144 && key.layer <= 5 && key.rail <= 1 && key.point < 220_050
}

/// The place of the page of a key, where each rail has so many pages.
pub fn page_place(width: usize, key: Key) -> usize
    requires wide { width ≤ 1720 }
    requires small { IsSmall key }
    ensures { result ≡ page_place width key }
{
    let rail = (key.cycle * 6 + key.layer) * 2 + key.rail;
    rail * width + key.point / PAGE
}

/// Where the number of a key stands. A page that is not made is the first.
pub fn slot(width: usize, pages: &[u32], key: Key) -> usize
    requires wide { width ≤ 1720 }
    requires small { IsSmall key }
    ensures { result ≡ slot width pages.now key }
{
    let place = page_place(width, key);
    let page = if place < pages.len() { pages[place] } else { 0 };
    page as usize * PAGE + key.point % PAGE
}

/// The number that stands where a key lies. Of a key that has no page nothing is said.
pub fn number_at(width: usize, pages: &[u32], numbers: &[u32], key: Key) -> u32
    requires wide { width ≤ 1720 }
    requires pages { ArePages pages.now numbers.now }
    ensures { IsSmall key → result ≡ number_at width pages.now numbers.now key }
{
    if is_small(key) {
        numbers[slot(width, pages, key)]
    } else {
        0
    }
}

/// Adds a blank page: a copy of the first.
fn push_blank(numbers: &mut Vec<u32>) -> Result<(), AllocError>
    requires blank { IsBlank numbers.old.items }
    requires long { 128 ≤ length numbers.old.items }
    ensures same { (i : ℕ) → slice_index numbers.new.items i ≡ slice_index numbers.old.items i }
    ensures len { length numbers.new.items ≡ (if is_ok result then length numbers.old.items + 128 else length numbers.old.items) }
{
    numbers.extend_from_within(0..PAGE)
}

/// Makes room for a page at a place, with no page in it.
fn reach(pages: &mut Vec<u32>, numbers: &[u32], place: usize) -> Result<(), AllocError>
    requires blank { IsBlank numbers.now }
    requires long { 128 ≤ length numbers.now }
    ensures same { (i : ℕ) → slice_index pages.new.items i ≡ slice_index pages.old.items i }
    ensures within { OnOk result (place < length pages.new.items) }
{
    while pages.len() <= place {
        pages.extend_from_slice(&numbers[..PAGE])?;
    }
    Ok(())
}

/// Makes the page at a place, where there is none. No number changes by it.
pub fn make_page(
    pages: &mut Vec<u32>,
    numbers: &mut Vec<u32>,
    place: usize,
) -> Result<(), AllocError>
    requires pages { ArePages pages.old.items numbers.old.items }
    ensures pages { ArePages pages.new.items numbers.new.items }
    ensures same { (width : ℕ) (k : KeyRecord) → number_at width pages.new.items numbers.new.items k ≡ number_at width pages.old.items numbers.old.items k }
    ensures made { OnOk result (0 < slice_index pages.new.items place) }
{
    reach(pages, numbers, place)?;
    if pages[place] != 0 {
        return Ok(());
    }
    let page = numbers.len() / PAGE;
    if page > 0xffff_ffff {
        return Err(AllocError);
    }
    push_blank(numbers)?;
    pages[place] = page as u32;
    Ok(())
}
