//! A text as an accepted list.
ghost use Rattle.std.specs.Prelude.{◌≡◌, [], IfOk, IfErr, Ok};
ghost use Rattle.report_rows.specs.Words.{texts, when};
ghost use Rattle.std.specs.Option.{option_map};
ghost use Rattle.accepted_lists.specs.Entries.{pair_entry};
ghost use Rattle.accepted_lists.specs.declared.lists.Entry.TheVariants.{OnPairs};
ghost use Rattle.accepted_lists.specs.Lists as spec;

use crate::cuts::{is_word, joined, part, pieces, word_at};
use crate::days::{Day, day_of};
use crate::entry_words::entry_words;
use crate::lists::{Entry, ListFault, ListLine};
use crate::notes::is_note;
use crate::pair_entries::pair_entry;
use sdcv_base::Seq;
use std::alloc::{AllocError, Global};

// The entry on pairs that the words are.
fn pairs_of(alloc: Global, words: &[&[u8]]) -> Result<Option<Entry>, AllocError>
    ensures { IfOk result (λ entry. entry ≡ option_map OnPairs (pair_entry (texts words.now))) }
{
    match pair_entry(alloc, words)? {
        Some(entry) => Ok(Some(Entry::OnPairs(entry))),
        None => Ok(None),
    }
}

// What the words of an entry accept.
#[tactic(auto, unfolding(crate::specs::Lists::entry_of))]
fn entry_of(alloc: Global, words: &[&[u8]]) -> Result<Option<Entry>, AllocError>
    ensures { IfOk result (λ entry. entry ≡ spec.entry_of (texts words.now)) }
{
    if is_word(words, 1, b"->") {
        pairs_of(alloc, words)
    } else if is_note(words) {
        Ok(Some(Entry::OnNote(joined(alloc, words)?)))
    } else {
        Ok(None)
    }
}

// Adds the line of an entry; answers whether the words are one.
fn add_entry(
    alloc: Global,
    number: u64,
    until: Option<Day>,
    words: &[&[u8]],
    lines: &mut Seq<ListLine>,
) -> Result<bool, AllocError>
    ensures { IfOk result (λ fits. when fits lines.new ≡ spec.with_entry number until lines.old (texts words.now)) }
{
    let Some(entry) = entry_of(alloc, words)? else {
        return Ok(false);
    };
    lines.push(ListLine {
        number,
        entry,
        until,
    })?;
    Ok(true)
}

// Whether an entry has a last day.
fn is_dated(words: &[&[u8]]) -> bool
    ensures { result ≡ spec.is_dated (texts words.now) }
{
    2 < words.len() && is_word(words, words.len() - 2, b"until")
}

// Adds the line of an entry with a last day; answers whether the words are one.
fn add_dated(
    alloc: Global,
    number: u64,
    words: &[&[u8]],
    lines: &mut Seq<ListLine>,
) -> Result<bool, AllocError>
    ensures { IfOk result (λ fits. when fits lines.new ≡ spec.with_dated number lines.old (texts words.now)) }
{
    let count = words.len();
    let Some(last) = day_of(word_at(words, count.saturating_sub(1))) else {
        return Ok(false);
    };
    let said = part(words, 0, count.saturating_sub(2));
    add_entry(alloc, number, Some(last), said, lines)
}

// Adds what the words of a line say; answers whether it is a line of a list.
#[tactic(auto, unfolding(crate::specs::Lists::with_words))]
fn add_words(
    alloc: Global,
    number: u64,
    words: &[&[u8]],
    lines: &mut Seq<ListLine>,
) -> Result<bool, AllocError>
    ensures { IfOk result (λ fits. when fits lines.new ≡ spec.with_words number lines.old (texts words.now)) }
{
    if words.is_empty() {
        Ok(true)
    } else if is_dated(words) {
        add_dated(alloc, number, words, lines)
    } else {
        add_entry(alloc, number, None, words, lines)
    }
}

// Adds what a line says; answers whether it is a line of a list.
fn add_line(
    alloc: Global,
    number: u64,
    line: &[u8],
    lines: &mut Seq<ListLine>,
) -> Result<bool, AllocError>
    ensures { IfOk result (λ fits. when fits lines.new ≡ spec.with_line number lines.old line.now) }
{
    let words = entry_words(alloc, line)?;
    add_words(alloc, number, &words, lines)
}

// What the lines of a text say.
fn lines_of(alloc: Global, pieces: &[&[u8]]) -> Result<Seq<ListLine>, ListFault>
    ensures ok { IfOk result (λ all. spec.with_lines 1 [] (texts pieces.now) ≡ Ok all) }
    ensures err { IfErr result (spec.IsListFault (spec.with_lines 1 [] (texts pieces.now))) }
{
    let mut lines = Seq::new(alloc);
    for place in 0..pieces.len() {
        let number = place as u64 + 1;
        if !add_line(alloc, number, pieces[place], &mut lines)? {
            return Err(ListFault::Line(number));
        }
    }
    Ok(lines)
}

/// The lines of the accepted list that a text is, or its first line that is none of one.
pub fn read_list(alloc: Global, text: &[u8]) -> Result<Seq<ListLine>, ListFault>
    ensures ok { IfOk result (λ lines. spec.listed text.now ≡ Ok lines) }
    ensures err { IfErr result (spec.IsListFault (spec.listed text.now)) }
{
    let cut = pieces(alloc, text)?;
    lines_of(alloc, &cut)
}
