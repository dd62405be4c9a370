//! The words of a command.
ghost use Rattle.std.specs.Prelude.{◌≡◌, ◌<◌, ◌≤◌, ◌+◌, ◌==◌, ◌&&◌, length, OnOk};
ghost use Rattle.sdcv_base.specs.Cursors.{rest, text_of};
ghost use Rattle.texts.specs.Rules.{Reads};
ghost use Rattle.sdc_words.specs.Reads.{Fails};
ghost use Rattle.sdc_words.specs.Pieces.{ends_command};
ghost use Rattle.sdc_words.specs.Words as spec;

use crate::blanks::{is_next, pass_gaps};
use crate::braces::may_open;
use crate::faults::{WordFault, deep, refused};
use crate::pieces;
use crate::plain_words::{expect_parted, take_text};
use crate::words::Word;
use sdcv_base::{Cursor, Seq};
use std::alloc::Global;

/// Takes a word or a bracket, where so many brackets are open, and sets how many are open then.
#[tactic(auto, unfolding(crate::specs::Words::word_at))]
pub fn take_word(alloc: Global, c: &mut Cursor<'_>, opened: &mut usize) -> Result<Word, WordFault>
    ensures value { Reads c.old c.new Fails (λ word. (opened.new, word)) result (spec.word_at opened.old) }
    ensures text { text_of c.new ≡ text_of c.old }
    ensures shorter { OnOk result (length (rest c.new) < length (rest c.old)) }
{
    if is_next(c.rest(), b'[') {
        if !may_open(*opened) {
            return Err(deep(c));
        }
        c.bump();
        let offset = c.place() - 1;
        *opened += 1;
        return Ok(Word::Opens(offset));
    }
    if 0 < *opened && is_next(c.rest(), b']') {
        c.bump();
        *opened -= 1;
        expect_parted(c, 0 < *opened)?;
        return Ok(Word::Closes);
    }
    if c.rest().is_empty() {
        return Err(refused(c));
    }
    let offset = c.place();
    let pieces = take_text(alloc, c, *opened)?;
    Ok(Word::Text { offset, pieces })
}

/// Whether a command ends here, where so many brackets are open.
pub fn is_end(opened: usize, text: &[u8]) -> bool
    ensures { result ≡ (opened == 0 && ends_command text.now) }
{
    opened == 0 && pieces::ends_command(text)
}

/// Takes the words up to the command's end, where so many brackets are open, and adds them to those found before.
fn more_words(
    alloc: Global,
    c: &mut Cursor<'_>,
    opened: usize,
    words: &mut Seq<Word>,
) -> Result<(), WordFault>
    ensures value { Reads c.old c.new Fails (λ _. words.new) result (spec.words_after opened words.old) }
    ensures text { text_of c.new ≡ text_of c.old }
    ensures within { OnOk result (length (rest c.new) ≤ length (rest c.old)) }
{
    let mut opened = opened;
    'words: loop {
        pass_gaps(c);
        if is_end(opened, c.rest()) {
            return Ok(());
        }
        let word = take_word(alloc, c, &mut opened)?;
        words.push(word)?;
    }
}

/// Takes the words of a command.
#[tactic(auto, unfolding(crate::specs::Words::words_at))]
pub fn take_words(alloc: Global, c: &mut Cursor<'_>) -> Result<Seq<Word>, WordFault>
    ensures value { Reads c.old c.new Fails (λ words. words) result spec.words_at }
    ensures text { text_of c.new ≡ text_of c.old }
    ensures shorter { OnOk result (length (rest c.new) < length (rest c.old)) }
{
    let mut opened = 0usize;
    let first = take_word(alloc, c, &mut opened)?;
    let mut words = Seq::one(alloc, first)?;
    more_words(alloc, c, opened, &mut words)?;
    Ok(words)
}
