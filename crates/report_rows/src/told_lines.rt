//! The lines of what is told of a netlist, and of a script beside its exceptions.
ghost use Rattle.std.specs.Prelude.{◌≡◌, ◌==◌, ◌+◌, ◌<◌, length, slice_index, IfOk, IfSome};
ghost use Rattle.report_rows.specs.Words.{texts, when, word_at};
ghost use Rattle.report_rows.specs.Tellings as spec;

use crate::cuts::{is_word, joined, number_at, part, rest_from, word_at};
use crate::heads::Head;
use crate::reports::{Report, Told};
use std::alloc::{AllocError, Global};

/// The number at a place that begins with no 0.
pub(crate) fn count_at(words: &[&[u8]], place: usize) -> Option<u64>
    ensures { result ≡ spec.count_of (word_at (texts words.now) place) }
{
    if begins_with_0(word_at(words, place)) {
        None
    } else {
        number_at(words, place)
    }
}

fn begins_with_0(word: &[u8]) -> bool
    ensures { result ≡ (slice_index word.now 0 == 48) }
{
    match word.first() {
        Some(digit) => *digit == b'0',
        None => false,
    }
}

// The place of a row's kind among the kinds of rows.
fn rank(row: &Told) -> u8
    ensures { result ≡ spec.rank row.now }
{
    match row {
        Told::Top(_) => 0,
        Told::Clock(_) => 1,
        Told::Cut(..) => 2,
        Told::Skipped(..) => 3,
        Told::Unjudged(..) => 4,
        Told::HoldSides(_) => 5,
    }
}

// Whether there may be several rows of the kind.
fn may_repeat(row: &Told) -> bool
    ensures { result ≡ spec.may_repeat row.now }
{
    match row {
        Told::Cut(..) | Told::Skipped(..) | Told::Unjudged(..) => true,
        Told::Top(_) | Told::Clock(_) | Told::HoldSides(_) => false,
    }
}

// Whether a row may come after another.
fn may_follow(last: &Told, next: &Told) -> bool
    ensures { result ≡ spec.may_follow last.now next.now }
{
    rank(last) < rank(next) || (rank(last) == rank(next) && may_repeat(next))
}

// Whether a row may come after those that are found.
fn may_follow_last(found: &Report, next: &Told) -> bool
    ensures { result ≡ spec.may_follow_last (spec.last_told found.now) next.now }
{
    match found.told.as_slice().last() {
        Some(last) => may_follow(last, next),
        None => true,
    }
}

// Whether a report whose first line says this may have the row.
fn may_tell(head: &Head, row: &Told) -> bool
    ensures { result ≡ spec.may_tell head.now row.now }
{
    match row {
        Told::Top(_) | Told::Clock(_) | Told::Cut(..) => head.tells_cuts(),
        Told::Skipped(..) => true,
        Told::Unjudged(..) => head.asked.strict,
        Told::HoldSides(_) => head.tells_holds(),
    }
}

// Whether the row of the line at a place after the first one stands in its place.
fn stands_at(found: &Report, place: usize, row: &Told) -> bool
    ensures { result ≡ spec.stands_at (place + 2) found.now row.now }
{
    place == found.told.len() && may_follow_last(found, row) && may_tell(&found.head, row)
}

/// Adds the row of the line at a place after the first one; answers whether it stands in its place.
pub(crate) fn add_told_at(found: &mut Report, place: usize, row: Told) -> Result<bool, AllocError>
    ensures { IfOk result (λ fits. when fits found.new ≡ spec.with_told_at (place + 2) found.old row) }
{
    if !stands_at(found, place, &row) {
        return Ok(false);
    }
    found.told.push(row)?;
    Ok(true)
}

#[tactic(auto, unfolding(crate::specs::Tellings::skipped_count))]
fn skipped_count(words: &[&[u8]]) -> Option<u64>
    ensures value { result ≡ spec.skipped_count (texts words.now) }
    ensures room { IfSome result (λ _. 2 < length words.now) }
{
    let count = words.len();
    if count > 2 {
        count_at(words, count - 1)
    } else {
        None
    }
}

/// Adds the row of a line on commands that are passed over; answers whether it is one.
pub(crate) fn add_skipped(
    alloc: Global,
    found: &mut Report,
    place: usize,
    words: &[&[u8]],
) -> Result<bool, AllocError>
    ensures { IfOk result (λ fits. when fits found.new ≡ spec.with_skipped (place + 2) found.old (texts words.now)) }
{
    let Some(count) = skipped_count(words) else {
        return Ok(false);
    };
    let name = joined(alloc, part(words, 1, words.len() - 1))?;
    add_told_at(found, place, Told::Skipped(name, count))
}

#[tactic(auto, unfolding(crate::specs::Tellings::unjudged_line))]
fn unjudged_line(words: &[&[u8]]) -> Option<u64>
    ensures { result ≡ spec.unjudged_line (texts words.now) }
{
    if words.len() > 4 && is_word(words, 3, b"unjudged") {
        count_at(words, 2)
    } else {
        None
    }
}

/// Adds the row of a line on a command that is not judged; answers whether it is one.
pub(crate) fn add_unjudged(
    alloc: Global,
    found: &mut Report,
    place: usize,
    words: &[&[u8]],
) -> Result<bool, AllocError>
    ensures { IfOk result (λ fits. when fits found.new ≡ spec.with_unjudged (place + 2) found.old (texts words.now)) }
{
    let Some(line) = unjudged_line(words) else {
        return Ok(false);
    };
    let name = joined(alloc, rest_from(words, 4))?;
    add_told_at(found, place, Told::Unjudged(line, name))
}

fn notes_holds(words: &[&[u8]]) -> bool
    ensures { result ≡ spec.notes_holds (texts words.now) }
{
    words.len() == 7
        && is_word(words, 1, b"hold")
        && is_word(words, 2, b"side")
        && is_word(words, 3, b"not")
        && is_word(words, 4, b"judged")
        && is_word(words, 5, b"commands")
}

#[tactic(auto, unfolding(crate::specs::Tellings::noted_count))]
fn noted_count(words: &[&[u8]]) -> Option<u64>
    ensures { result ≡ spec.noted_count (texts words.now) }
{
    if notes_holds(words) {
        count_at(words, 6)
    } else {
        None
    }
}

/// Adds the row of the line on hold sides that are not judged; answers whether it is one.
pub(crate) fn add_note(
    found: &mut Report,
    place: usize,
    words: &[&[u8]],
) -> Result<bool, AllocError>
    ensures { IfOk result (λ fits. when fits found.new ≡ spec.with_note (place + 2) found.old (texts words.now)) }
{
    let Some(count) = noted_count(words) else {
        return Ok(false);
    };
    add_told_at(found, place, Told::HoldSides(count))
}
