//! The lines of what is told of a netlist.
ghost use Rattle.std.specs.Prelude.{◌≡◌, ◌+◌, ◌<◌, length, IfOk, IfSome};
ghost use Rattle.report_rows.specs.Words.{texts, when};
ghost use Rattle.report_rows.specs.Tellings as spec;

use crate::cuts::{is_word, joined, part, rest_from};
use crate::reports::{Report, Told};
use crate::told_lines::{add_told_at, count_at};
use sdcv_base::Name;
use std::alloc::{AllocError, Global};

// The name after the first word of a line.
fn name_of(alloc: Global, words: &[&[u8]]) -> Result<Option<Name>, AllocError>
    ensures { IfOk result (λ name. name ≡ spec.name_of (texts words.now)) }
{
    if words.len() < 2 {
        return Ok(None);
    }
    Ok(Some(joined(alloc, rest_from(words, 1))?))
}

/// Adds the row of the line on the top module; answers whether it is one.
pub(crate) fn add_top(
    alloc: Global,
    found: &mut Report,
    place: usize,
    words: &[&[u8]],
) -> Result<bool, AllocError>
    ensures { IfOk result (λ fits. when fits found.new ≡ spec.with_top (place + 2) found.old (texts words.now)) }
{
    match name_of(alloc, words)? {
        Some(name) => add_told_at(found, place, Told::Top(name)),
        None => Ok(false),
    }
}

/// Adds the row of the line on the clock; answers whether it is one.
pub(crate) fn add_clock(
    alloc: Global,
    found: &mut Report,
    place: usize,
    words: &[&[u8]],
) -> Result<bool, AllocError>
    ensures { IfOk result (λ fits. when fits found.new ≡ spec.with_clock (place + 2) found.old (texts words.now)) }
{
    match name_of(alloc, words)? {
        Some(name) => add_told_at(found, place, Told::Clock(name)),
        None => Ok(false),
    }
}

// Whether a path may lead through the cells of a line.
fn may_lead(words: &[&[u8]]) -> bool
    ensures { result ≡ spec.may_lead (texts words.now) }
{
    is_word(words, words.len().saturating_sub(1), b"open")
}

// How many words the line has but for the one that says so.
fn cut_upto(words: &[&[u8]]) -> usize
    ensures { result ≡ spec.cut_upto (texts words.now) }
{
    if may_lead(words) {
        words.len().saturating_sub(1)
    } else {
        words.len()
    }
}

#[tactic(auto, unfolding(crate::specs::Tellings::cut_count))]
fn cut_count(words: &[&[u8]], upto: usize) -> Option<u64>
    ensures value { result ≡ spec.cut_count (texts words.now) upto }
    ensures room { IfSome result (λ _. 2 < upto) }
{
    if upto > 2 {
        count_at(words, upto - 1)
    } else {
        None
    }
}

/// Adds the row of a line on cells that are cut out; answers whether it is one.
pub(crate) fn add_cut(
    alloc: Global,
    found: &mut Report,
    place: usize,
    words: &[&[u8]],
) -> Result<bool, AllocError>
    ensures { IfOk result (λ fits. when fits found.new ≡ spec.with_cut (place + 2) found.old (texts words.now)) }
{
    let upto = cut_upto(words);
    let Some(count) = cut_count(words, upto) else {
        return Ok(false);
    };
    let cell = joined(alloc, part(words, 1, upto - 1))?;
    add_told_at(found, place, Told::Cut(cell, count, may_lead(words)))
}
