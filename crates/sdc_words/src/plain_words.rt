//! Words that are no nested commands: in braces, in quotes, or bare.
ghost use Rattle.std.specs.Prelude.{◌≡◌, ◌<◌, length, OnOk};
ghost use Rattle.sdcv_base.specs.Cursors.{rest, text_of};
ghost use Rattle.texts.specs.Rules.{Gives, Reads};
ghost use Rattle.sdc_words.specs.Reads.{Fails};
ghost use Rattle.sdc_words.specs.Texts as spec;

use crate::blanks::is_next;
use crate::braces::{Match, joined, matched, may_open};
use crate::faults::{WordFault, deep, refused};
use crate::pieces::{Within, is_over, more_pieces, take_piece};
use crate::words::Piece;
use sdcv_base::{Cursor, Seq};
use std::alloc::Global;
use texts::{after, upto};

/// What a bare word stands in.
pub fn around(is_inside: bool) -> Within
    ensures { result ≡ spec.around is_inside }
{
    if is_inside {
        Within::Brackets
    } else {
        Within::Command
    }
}

/// Refuses what follows a closing brace, quote or bracket, unless it ends a bare word.
#[tactic(auto, unfolding(crate::specs::Texts::parted))]
pub fn expect_parted(c: &Cursor<'_>, is_inside: bool) -> Result<(), WordFault>
    ensures { Gives (Fails (length (text_of c.now))) (λ _. rest c.now) result (spec.parted is_inside (length (text_of c.now)) (rest c.now)) }
{
    if !is_over(around(is_inside), false, c.rest()) {
        return Err(refused(c));
    }
    Ok(())
}

/// A word in braces, in so many brackets.
#[tactic(auto, unfolding(crate::specs::Texts::braced_at))]
pub fn take_braced(
    alloc: Global,
    c: &mut Cursor<'_>,
    opened: usize,
) -> Result<Seq<Piece>, WordFault>
    requires { 0 < length (rest c.old) }
    ensures value { Reads c.old c.new Fails (λ p. p) result (spec.braced_at opened) }
    ensures text { text_of c.new ≡ text_of c.old }
    ensures shorter { OnOk result (length (rest c.new) < length (rest c.old)) }
{
    if !may_open(opened) {
        return Err(deep(c));
    }
    let text = after(c.rest(), 1);
    match matched(opened + 1, text) {
        Match::Closed(len) => {
            c.skip(len + 1);
            let bytes = joined(alloc, upto(text, len - 1))?;
            Ok(Seq::one(alloc, Piece::Bytes(bytes))?)
        }
        Match::Deep(place) => {
            c.skip(place + 1);
            Err(deep(c))
        }
        Match::Unclosed => Err(refused(c)),
    }
}

#[tactic(auto, unfolding(crate::specs::Texts::quote_at))]
pub fn expect_quote(c: &mut Cursor<'_>) -> Result<(), WordFault>
    ensures value { Gives (Fails (length (text_of c.old))) (λ _. rest c.new) result (spec.quote_at (length (text_of c.old)) (rest c.old)) }
    ensures text { text_of c.new ≡ text_of c.old }
    ensures shorter { OnOk result (length (rest c.new) < length (rest c.old)) }
{
    if !is_next(c.rest(), b'"') {
        return Err(refused(c));
    }
    c.bump();
    Ok(())
}

/// A word in quotes.
#[tactic(auto, unfolding(crate::specs::Texts::quoted_at))]
fn take_quoted(alloc: Global, c: &mut Cursor<'_>) -> Result<Seq<Piece>, WordFault>
    requires { 0 < length (rest c.old) }
    ensures value { Reads c.old c.new Fails (λ p. p) result spec.quoted_at }
    ensures text { text_of c.new ≡ text_of c.old }
    ensures shorter { OnOk result (length (rest c.new) < length (rest c.old)) }
{
    c.bump();
    let mut pieces = Seq::new(alloc);
    more_pieces(alloc, c, Within::Quotes, &mut pieces)?;
    expect_quote(c)?;
    Ok(pieces)
}

/// A bare word.
#[tactic(auto, unfolding(crate::specs::Texts::bare_at))]
fn take_bare(alloc: Global, c: &mut Cursor<'_>, is_inside: bool) -> Result<Seq<Piece>, WordFault>
    requires { 0 < length (rest c.old) }
    ensures value { Reads c.old c.new Fails (λ p. p) result (spec.bare_at is_inside) }
    ensures text { text_of c.new ≡ text_of c.old }
    ensures shorter { OnOk result (length (rest c.new) < length (rest c.old)) }
{
    let first = take_piece(alloc, c, around(is_inside))?;
    let mut pieces = Seq::one(alloc, first)?;
    more_pieces(alloc, c, around(is_inside), &mut pieces)?;
    Ok(pieces)
}

/// Takes the pieces of a word in so many brackets.
#[tactic(auto, unfolding(crate::specs::Texts::text_at))]
pub fn take_text(alloc: Global, c: &mut Cursor<'_>, opened: usize) -> Result<Seq<Piece>, WordFault>
    requires { 0 < length (rest c.old) }
    ensures value { Reads c.old c.new Fails (λ p. p) result (spec.text_at opened) }
    ensures text { text_of c.new ≡ text_of c.old }
    ensures shorter { OnOk result (length (rest c.new) < length (rest c.old)) }
{
    let is_inside = 0 < opened;
    if is_next(c.rest(), b'{') {
        let pieces = take_braced(alloc, c, opened)?;
        expect_parted(c, is_inside)?;
        return Ok(pieces);
    }
    if is_next(c.rest(), b'"') {
        let pieces = take_quoted(alloc, c)?;
        expect_parted(c, is_inside)?;
        return Ok(pieces);
    }
    take_bare(alloc, c, is_inside)
}
