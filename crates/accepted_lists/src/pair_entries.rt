//! The entries on pairs.
ghost use Rattle.std.specs.Prelude.{◌≡◌, ◌≤◌, ◌<◌, ◌+◌, length, IfOk, IfSome};
ghost use Rattle.report_rows.specs.Words.{texts};
ghost use Rattle.accepted_lists.specs.Entries as spec;

use crate::cuts::{is_word, joined, number_at, part, word_at};
use report_rows::Word;
use sdcv_base::Name;
use std::alloc::{AllocError, Global};

/// An entry on pairs.
#[derive(Drop)]
pub struct PairEntry {
    /// A pattern of the start.
    pub start: Name,
    /// A pattern of the end.
    pub end: Name,
    /// How many pairs it may fit, where it says so.
    pub count: Option<u64>,
    /// Whether it is of reports with hazards alone.
    pub hazard: bool,
    /// The lag of the reports that it is of, where it says so.
    pub lag: Option<u64>,
    /// What is claimed, as `false` or `multi 2`.
    pub kind: Name,
    pub verdict: Word,
}

/// Of which reports an entry is, and from which place on its words say the kind.
#[derive(Clone, Copy)]
pub struct Terms {
    pub hazard: bool,
    pub lag: Option<u64>,
    pub from: usize,
}

#[tactic(auto, unfolding(crate::specs::Entries::open_verdict))]
fn open_verdict(word: &[u8]) -> Option<Word>
    ensures { result ≡ spec.open_verdict word.now }
{
    if word == b"refuted".as_slice() {
        Some(Word::Refuted)
    } else if word == b"undecided".as_slice() {
        Some(Word::Undecided)
    } else {
        None
    }
}

fn is_kind(words: &[&[u8]]) -> bool
    ensures { result ≡ spec.is_kind (texts words.now) }
{
    is_word(words, 0, b"false") || is_word(words, 0, b"multi")
}

// The entry on pairs with a count and terms, of the kind that these words say and of this verdict.
#[tactic(auto, unfolding(crate::specs::Entries::entry_with))]
fn entry_with(
    alloc: Global,
    words: &[&[u8]],
    count: Option<u64>,
    terms: Terms,
    kind: &[&[u8]],
    verdict: Word,
) -> Result<Option<PairEntry>, AllocError>
    ensures { IfOk result (λ entry. entry ≡ spec.entry_with (texts words.now) count terms (texts kind.now) verdict) }
{
    if !is_kind(kind) {
        return Ok(None);
    }
    Ok(Some(PairEntry {
        start: Name::new(alloc, word_at(words, 0))?,
        end: Name::new(alloc, word_at(words, 2))?,
        count,
        hazard: terms.hazard,
        lag: terms.lag,
        kind: joined(alloc, kind)?,
        verdict,
    }))
}

fn is_gate_line(words: &[&[u8]]) -> bool
    ensures { result ≡ spec.is_gate_line (texts words.now) }
{
    8 < words.len() && is_word(words, words.len() - 2, b"first")
}

// The place of the word `command` after a cause.
#[tactic(auto, unfolding(crate::specs::Entries::end_of_cause))]
fn end_of_cause(words: &[&[u8]]) -> Option<usize>
    ensures value { result ≡ spec.end_of_cause (texts words.now) }
    ensures within { IfSome result (λ place. place < length words.now) }
{
    for k in 6..words.len() {
        if words[k] == b"command".as_slice() {
            return Some(k);
        }
    }
    None
}

/// What a gate's line says before its kind: the count, the verdict, and from where on the kind follows.
#[derive(Clone, Copy)]
pub struct GateWords {
    pub count: u64,
    pub verdict: Word,
    pub from: usize,
}

#[tactic(auto, unfolding(crate::specs::Entries::gate_words))]
fn gate_words(words: &[&[u8]]) -> Option<GateWords>
    ensures { result ≡ spec.gate_words (texts words.now) }
{
    let count = number_at(words, 3)?;
    let verdict = open_verdict(word_at(words, 4))?;
    let place = end_of_cause(words)?;
    Some(GateWords {
        count,
        verdict,
        from: place + 2,
    })
}

// The entry that a gate's line is.
fn gate_entry(alloc: Global, words: &[&[u8]]) -> Result<Option<PairEntry>, AllocError>
    ensures { IfOk result (λ entry. entry ≡ spec.gate_entry (texts words.now)) }
{
    let Some(said) = gate_words(words) else {
        return Ok(None);
    };
    let terms = Terms {
        hazard: false,
        lag: None,
        from: said.from,
    };
    let kind = part(words, said.from, words.len().saturating_sub(2));
    entry_with(alloc, words, Some(said.count), terms, kind, said.verdict)
}

fn after_hazard(words: &[&[u8]], from: usize) -> usize
    requires { from ≤ 4 }
    ensures value { result ≡ spec.after_hazard (texts words.now) from }
    ensures few { result ≤ 5 }
{
    if is_word(words, from, b"hazard") {
        from + 1
    } else {
        from
    }
}

fn with_lag(words: &[&[u8]], hazard: bool, from: usize) -> Option<Terms>
    requires { from ≤ 5 }
    ensures { result ≡ spec.with_lag (texts words.now) hazard from }
{
    if is_word(words, from, b"lag") {
        let lag = number_at(words, from + 1)?;
        Some(Terms {
            hazard,
            lag: Some(lag),
            from: from + 2,
        })
    } else {
        Some(Terms {
            hazard,
            lag: None,
            from,
        })
    }
}

fn terms_at(words: &[&[u8]], from: usize) -> Option<Terms>
    requires { from ≤ 4 }
    ensures { result ≡ spec.terms_at (texts words.now) from }
{
    with_lag(
        words,
        is_word(words, from, b"hazard"),
        after_hazard(words, from),
    )
}

fn after_count(count: Option<u64>) -> usize
    ensures value { result ≡ spec.after_count count }
    ensures few { result ≤ 4 }
{
    match count {
        None => 3,
        Some(_) => 4,
    }
}

/// What a line of the second form says before and after its kind.
#[derive(Clone, Copy)]
pub struct ShortWords {
    pub verdict: Word,
    pub count: Option<u64>,
    pub terms: Terms,
}

#[tactic(auto, unfolding(crate::specs::Entries::short_words))]
fn short_words(words: &[&[u8]]) -> Option<ShortWords>
    ensures { result ≡ spec.short_words (texts words.now) }
{
    let verdict = open_verdict(word_at(words, words.len().saturating_sub(1)))?;
    let count = number_at(words, 3);
    let terms = terms_at(words, after_count(count))?;
    Some(ShortWords {
        verdict,
        count,
        terms,
    })
}

// The entry that a line of the second form is.
fn short_entry(alloc: Global, words: &[&[u8]]) -> Result<Option<PairEntry>, AllocError>
    ensures { IfOk result (λ entry. entry ≡ spec.short_entry (texts words.now)) }
{
    let Some(said) = short_words(words) else {
        return Ok(None);
    };
    let kind = part(words, said.terms.from, words.len().saturating_sub(1));
    entry_with(alloc, words, said.count, said.terms, kind, said.verdict)
}

/// The entry on pairs that the words of a line are.
pub(crate) fn pair_entry(alloc: Global, words: &[&[u8]]) -> Result<Option<PairEntry>, AllocError>
    ensures { IfOk result (λ entry. entry ≡ spec.pair_entry (texts words.now)) }
{
    if is_gate_line(words) {
        gate_entry(alloc, words)
    } else {
        short_entry(alloc, words)
    }
}
