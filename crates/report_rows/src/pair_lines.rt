//! The lines of the pairs.
ghost use Rattle.std.specs.Prelude.{◌≡◌, ◌≤◌, ◌<◌, ◌+◌, length, IfOk, IfSome};
ghost use Rattle.report_rows.specs.Words.{texts, when};
ghost use Rattle.report_rows.specs.Rows.{with_pair};
ghost use Rattle.report_rows.specs.Lines as spec;

use crate::cuts::{is_word, joined, number_at, part, rest_from, word_at};
use crate::reports::{PairRow, Report, Word};
use crate::verdicts::verdict_in;
use sdcv_base::Name;
use std::alloc::{AllocError, Global};

/// What is found at the places of a pair's line: the start stands before the arrow, the end after it.
#[derive(Clone, Copy)]
pub struct PairPlaces {
    pub number: u64,
    pub command: u64,
    pub arrow: usize,
    pub verdict: Word,
}

#[tactic(auto, unfolding(crate::specs::Lines::arrow_of))]
fn arrow_of(words: &[&[u8]]) -> Option<usize>
    ensures value { result ≡ spec.arrow_of (texts words.now) }
    ensures within { IfSome result (λ arrow. (6 ≤ arrow) × (arrow < length words.now)) }
{
    for k in 6..words.len() {
        if words[k] == b"->".as_slice() {
            return Some(k);
        }
    }
    None
}

#[tactic(auto, unfolding(crate::specs::Lines::places_of))]
fn places_of(words: &[&[u8]]) -> Option<PairPlaces>
    ensures value { result ≡ spec.places_of (texts words.now) }
    ensures within { IfSome result (λ p. (6 ≤ p.arrow) × (p.arrow + 3 < length words.now)) }
{
    if !is_word(words, 2, b"command") {
        return None;
    }
    let number = number_at(words, 1)?;
    let command = number_at(words, 3)?;
    let arrow = arrow_of(words)?;
    if words.len() - arrow <= 3 {
        return None;
    }
    let verdict = verdict_in(word_at(words, arrow + 2))?;
    Some(PairPlaces {
        number,
        command,
        arrow,
        verdict,
    })
}

// The row of a pair's line.
fn row_of(alloc: Global, words: &[&[u8]], places: &PairPlaces) -> Result<PairRow, AllocError>
    requires { (6 ≤ places.now.arrow) × (places.now.arrow + 3 < length words.now) }
    ensures { IfOk result (λ row. row ≡ spec.row_of (texts words.now) places.now) }
{
    let arrow = places.arrow;
    Ok(PairRow {
        number: places.number,
        command: places.command,
        kind: joined(alloc, part(words, 4, arrow - 1))?,
        start: Name::new(alloc, word_at(words, arrow - 1))?,
        end: Name::new(alloc, word_at(words, arrow + 1))?,
        verdict: places.verdict,
        why: joined(alloc, rest_from(words, arrow + 3))?,
    })
}

/// Adds the row of a pair that has the next number; answers whether it has.
pub(crate) fn add_pair(found: &mut Report, row: PairRow) -> Result<bool, AllocError>
    ensures { IfOk result (λ fits. when fits found.new ≡ with_pair found.old row) }
{
    if row.number == 0 || row.number - 1 != found.pairs.len() as u64 {
        return Ok(false);
    }
    found.pairs.push(row)?;
    Ok(true)
}

/// Adds the row of a pair's line; answers whether it is one.
pub(crate) fn add_pair_line(
    alloc: Global,
    found: &mut Report,
    words: &[&[u8]],
) -> Result<bool, AllocError>
    ensures { IfOk result (λ fits. when fits found.new ≡ spec.with_pair_line found.old (texts words.now)) }
{
    let Some(places) = places_of(words) else {
        return Ok(false);
    };
    add_pair(found, row_of(alloc, words, &places)?)
}
