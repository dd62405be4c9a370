//! Words of which nothing is kept.
ghost use Rattle.std.specs.Prelude.{◌≡◌, ◌<◌, ◌≤◌, List, length, OnOk};
ghost use Rattle.sdcv_base.specs.Cursors.{rest, text_of};
ghost use Rattle.texts.specs.Rules.{Reads};
ghost use Rattle.sdc_words.specs.Reads.{Fails, Passes};
ghost use Rattle.sdc_words.specs.Pieces.{piece_at, pieces_after};
ghost use Rattle.sdc_words.specs.Texts as spec;
ghost use Rattle.sdc_words.specs.Words as words;
ghost use Rattle.sdc_words.specs.declared.words.Piece.{Piece as APiece};
ghost use Rattle.sdc_words.specs.declared.words.Word.{Word as AWord};

use crate::blanks::{is_next, pass_gaps};
use crate::braces::may_open;
use crate::faults::{WordFault, deep, refused};
use crate::pieces::{Within, is_over, take_piece};
use crate::plain_words::{around, expect_parted, expect_quote, take_braced};
use crate::word_lists::is_end;
use sdcv_base::Cursor;
use std::alloc::Global;
use texts::has_two;

/// Passes a piece of a word that is not over.
fn pass_piece(alloc: Global, c: &mut Cursor<'_>, within: Within) -> Result<(), WordFault>
    requires { 0 < length (rest c.old) }
    ensures value { Passes c.old c.new result (piece_at within) }
    ensures text { text_of c.new ≡ text_of c.old }
    ensures shorter { OnOk result (length (rest c.new) < length (rest c.old)) }
{
    let _piece = take_piece(alloc, c, within)?;
    Ok(())
}

/// Passes the pieces up to where the word is over.
fn pass_pieces(alloc: Global, c: &mut Cursor<'_>, within: Within) -> Result<(), WordFault>
    ensures value { (found : List APiece) → Passes c.old c.new result (pieces_after within found) }
    ensures text { text_of c.new ≡ text_of c.old }
    ensures within { OnOk result (length (rest c.new) ≤ length (rest c.old)) }
{
    let mut is_slashed = false;
    'pieces: loop {
        let text = c.rest();
        if is_over(within, is_slashed, text) {
            return Ok(());
        }
        if text.is_empty() {
            return Err(refused(c));
        }
        is_slashed = has_two(text, b'\\', b'\\');
        pass_piece(alloc, c, within)?;
    }
}

/// Passes a word in braces, in so many brackets.
fn pass_braced(alloc: Global, c: &mut Cursor<'_>, opened: usize) -> Result<(), WordFault>
    requires { 0 < length (rest c.old) }
    ensures value { Passes c.old c.new result (spec.braced_at opened) }
    ensures text { text_of c.new ≡ text_of c.old }
    ensures shorter { OnOk result (length (rest c.new) < length (rest c.old)) }
{
    let _pieces = take_braced(alloc, c, opened)?;
    Ok(())
}

/// Passes a word in quotes.
#[tactic(auto, unfolding(crate::specs::Texts::quoted_at))]
fn pass_quoted(alloc: Global, c: &mut Cursor<'_>) -> Result<(), WordFault>
    requires { 0 < length (rest c.old) }
    ensures value { Passes c.old c.new result spec.quoted_at }
    ensures text { text_of c.new ≡ text_of c.old }
    ensures shorter { OnOk result (length (rest c.new) < length (rest c.old)) }
{
    c.bump();
    pass_pieces(alloc, c, Within::Quotes)?;
    expect_quote(c)
}

/// Passes a bare word.
#[tactic(auto, unfolding(crate::specs::Texts::bare_at))]
fn pass_bare(alloc: Global, c: &mut Cursor<'_>, is_inside: bool) -> Result<(), WordFault>
    requires { 0 < length (rest c.old) }
    ensures value { Passes c.old c.new result (spec.bare_at is_inside) }
    ensures text { text_of c.new ≡ text_of c.old }
    ensures shorter { OnOk result (length (rest c.new) < length (rest c.old)) }
{
    pass_piece(alloc, c, around(is_inside))?;
    pass_pieces(alloc, c, around(is_inside))
}

/// Passes a word in so many brackets.
#[tactic(auto, unfolding(crate::specs::Texts::text_at))]
fn pass_text(alloc: Global, c: &mut Cursor<'_>, opened: usize) -> Result<(), WordFault>
    requires { 0 < length (rest c.old) }
    ensures value { Passes c.old c.new result (spec.text_at opened) }
    ensures text { text_of c.new ≡ text_of c.old }
    ensures shorter { OnOk result (length (rest c.new) < length (rest c.old)) }
{
    let is_inside = 0 < opened;
    if is_next(c.rest(), b'{') {
        pass_braced(alloc, c, opened)?;
        return expect_parted(c, is_inside);
    }
    if is_next(c.rest(), b'"') {
        pass_quoted(alloc, c)?;
        return expect_parted(c, is_inside);
    }
    pass_bare(alloc, c, is_inside)
}

/// Passes a word or a bracket, where so many brackets are open, and sets how many are open then.
#[tactic(auto, unfolding(crate::specs::Words::word_at))]
fn pass_word(alloc: Global, c: &mut Cursor<'_>, opened: &mut usize) -> Result<(), WordFault>
    ensures value { Reads c.old c.new Fails (λ _. opened.new) result (words.word_past opened.old) }
    ensures text { text_of c.new ≡ text_of c.old }
    ensures shorter { OnOk result (length (rest c.new) < length (rest c.old)) }
{
    if is_next(c.rest(), b'[') {
        if !may_open(*opened) {
            return Err(deep(c));
        }
        c.bump();
        *opened += 1;
        return Ok(());
    }
    if 0 < *opened && is_next(c.rest(), b']') {
        c.bump();
        *opened -= 1;
        return expect_parted(c, 0 < *opened);
    }
    if c.rest().is_empty() {
        return Err(refused(c));
    }
    pass_text(alloc, c, *opened)
}

/// Passes the words up to the command's end, where so many brackets are open.
fn pass_more(alloc: Global, c: &mut Cursor<'_>, opened: usize) -> Result<(), WordFault>
    ensures value { (found : List AWord) → Passes c.old c.new result (words.words_after opened found) }
    ensures text { text_of c.new ≡ text_of c.old }
    ensures within { OnOk result (length (rest c.new) ≤ length (rest c.old)) }
{
    let mut opened = opened;
    'words: loop {
        pass_gaps(c);
        if is_end(opened, c.rest()) {
            return Ok(());
        }
        pass_word(alloc, c, &mut opened)?;
    }
}

/// Passes the words of a command.
#[tactic(auto, unfolding(crate::specs::Words::words_at))]
pub fn pass_words(alloc: Global, c: &mut Cursor<'_>) -> Result<(), WordFault>
    ensures value { Passes c.old c.new result words.words_at }
    ensures text { text_of c.new ≡ text_of c.old }
    ensures shorter { OnOk result (length (rest c.new) < length (rest c.old)) }
{
    let mut opened = 0usize;
    pass_word(alloc, c, &mut opened)?;
    pass_more(alloc, c, opened)
}
