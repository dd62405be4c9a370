//! Brackets among the words of a delay.
ghost use Rattle.std.specs.Prelude.{◌≡◌, ◌<◌, ◌≤◌, length, drop, IfOk};
ghost use Rattle.texts.specs.Rules.{Gives};
ghost use Rattle.sdc_values.specs.Told.{Fails};
ghost use Rattle.sdc_values.specs.Collections as spec;

use crate::command_words::words_after;
use crate::gets::closes;
use crate::lists::objects_of;
use crate::nested::nested;
use crate::nested_kinds::{Nesting, is_option, is_removal};
use crate::values::{Said, Value};
use crate::variables::Variables;
use crate::word_texts::said_text;
use script_types::{Object, SdcFault};
use sdc_words::{Piece, Word};
use sdcv_base::Seq;
use std::alloc::Global;

fn depth_after(word: &Word, depth: usize) -> Option<usize>
    requires { depth < usize.MAX }
    ensures { result ≡ spec.depth_after word.now depth }
{
    match word {
        Word::Text { .. } => Some(depth),
        Word::Opens(_) => Some(depth + 1),
        Word::Closes => depth.checked_sub(1),
    }
}

/// How many words a bracket has after its `[`, with its `]`.
pub fn bracket_len(words: &[Word]) -> usize
    ensures value { drop result words.now ≡ spec.after_bracket 0 words.now }
    ensures within { result ≤ length words.now }
{
    let mut depth = 0;
    for place in 0..words.len() {
        match depth_after(&words[place], depth) {
            Some(more) => depth = more,
            None => return place + 1,
        }
    }
    words.len()
}

fn removes(words: &[Word]) -> bool
    ensures { result ≡ spec.removes words.now }
{
    match words.first() {
        Some(Word::Text { pieces, .. }) => {
            match pieces.as_slice() {
                [Piece::Bytes(name)] => is_removal(name.as_bytes()),
                _ => false,
            }
        }
        _ => false,
    }
}

fn says_option(value: &Value) -> bool
    ensures { result ≡ spec.says_option value.now }
{
    match value {
        Value::Text(text) => is_option(text.as_bytes()),
        Value::Objects(_) => false,
    }
}

#[tactic(auto, unfolding(crate::specs::Collections::plain_objects))]
fn plain_objects(alloc: Global, said: &Said<'_>) -> Result<Seq<Object>, SdcFault>
    ensures { Gives Fails (λ objects. objects) result (spec.plain_objects said.now) }
{
    if says_option(said.value.get()) {
        return Err(SdcFault::Syntax(said.offset));
    }
    objects_of(alloc, said)
}

/// The objects of the first word within the bracket at this offset, and how many words that takes, with fewer than `depth`
/// removals nested in one another.
#[cycle(removals)]
#[tactic(auto, unfolding(crate::specs::Collections::word_at))]
fn word(
    alloc: Global,
    vars: &Variables,
    line: u64,
    place: usize,
    depth: usize,
    words: &[Word],
) -> Result<(Seq<Object>, usize), SdcFault>
    ensures value { Gives Fails (λ p. (p.0, drop p.1 words.now)) result
        (spec.word_at (spec.collection_from depth vars.now line) vars.now line place words.now) }
    ensures within { IfOk result (λ p. p.1 ≤ length words.now) }
{
    match words.first() {
        Some(Word::Text { offset, pieces }) => {
            let said = said_text(alloc, vars, line, *offset, pieces)?;
            Ok((plain_objects(alloc, &said)?, 1))
        }
        Some(Word::Opens(offset)) => {
            let (objects, count) = collection_from(
                alloc,
                vars,
                line,
                *offset,
                depth,
                words_after(words, 1),
            )?;
            Ok((objects, count + 1))
        }
        Some(Word::Closes) | None => Err(SdcFault::Syntax(place)),
    }
}

/// The objects of the first of two words, and how many words there are with the `]` after them.
#[cycle(removals)]
#[tactic(auto, unfolding(crate::specs::Collections::first_of_two))]
fn first_of_two(
    alloc: Global,
    vars: &Variables,
    line: u64,
    place: usize,
    depth: usize,
    words: &[Word],
) -> Result<(Seq<Object>, usize), SdcFault>
    ensures value { Gives Fails (λ p. (p.0, drop p.1 words.now)) result
        (spec.first_of_two (spec.collection_from depth vars.now line) vars.now line place words.now) }
    ensures within { IfOk result (λ p. p.1 ≤ length words.now) }
{
    let (objects, first) = word(alloc, vars, line, place, depth, words)?;
    let later = words_after(words, first);
    let (_, second) = word(alloc, vars, line, place, depth, later)?;
    if closes(words_after(later, second)) {
        return Ok((objects, first + second + 1));
    }
    Err(SdcFault::Syntax(place))
}

#[cycle(removals)]
#[tactic(auto, unfolding(crate::specs::Collections::collection_from))]
fn collection_from(
    alloc: Global,
    vars: &Variables,
    line: u64,
    offset: usize,
    depth: usize,
    words: &[Word],
) -> Result<(Seq<Object>, usize), SdcFault>
    ensures value { Gives Fails (λ p. (p.0, drop p.1 words.now)) result (spec.collection_from depth vars.now line offset words.now) }
    ensures within { IfOk result (λ p. p.1 ≤ length words.now) }
{
    if depth == 0 {
        return Err(SdcFault::Syntax(offset));
    }
    if removes(words) {
        let (objects, count) = first_of_two(
            alloc,
            vars,
            line,
            offset,
            depth - 1,
            words_after(words, 1),
        )?;
        return Ok((objects, count + 1));
    }
    nested(alloc, Nesting::Wide, vars, line, offset, words)
}

/// The objects of the nested command whose `[` stands at this offset, of a command on this line, and how many words it has
/// with its `]`. Those of `remove_from_collection` are the first of its two lists, which may be a removal too.
pub fn collection(
    alloc: Global,
    vars: &Variables,
    line: u64,
    offset: usize,
    words: &[Word],
) -> Result<(Seq<Object>, usize), SdcFault>
    ensures value { Gives Fails (λ p. (p.0, drop p.1 words.now)) result (spec.collection_at vars.now line offset words.now) }
    ensures within { IfOk result (λ p. p.1 ≤ length words.now) }
{
    collection_from(alloc, vars, line, offset, words.len() + 1, words)
}
