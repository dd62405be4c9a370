//! Rows of items that the word 0 ends.
ghost use Rattle.std.specs.Prelude.{◌⊎◌, ◌≡◌, IfOk, IfErr, IsTrue, ◌↔◌};
ghost use Rattle.std.specs.Fmt.{decimal};
ghost use Rattle.proof_log.specs.Literals.{lit_var};
ghost use Rattle.cert_words.specs.Numbers.{lit_word, IsLitAbove, IsHint, MayBeZero, BeginsLit, BeginsHint};
ghost use Rattle.cert_words.specs.Growth.{Chain};
ghost use Rattle.cert_words.specs.Parts.{row, Passes, IsPartStop};

use crate::numbers::{lit_of, may_be_lit, number_of};
use crate::stops::{Stop, cut_off};
use crate::words::{NextWord, Words};
use proof_log::Lit;
use sdcv_base::Seq;
use std::alloc::Global;

/// The greatest hint.
const MOST_HINT: u64 = 9_223_372_036_854_775_807;

/// Whether a word can go on to the word 0.
fn may_be_zero(word: &[u8]) -> bool
    ensures { IsTrue result ↔ MayBeZero word.now }
{
    word.is_empty() || word == b"0".as_slice()
}

/// Whether a word can go on to the word 0, or to a literal of a variable above another one.
fn may_end_or_go_on(word: &[u8], above: u32) -> bool
    ensures { IsTrue result ↔ (MayBeZero word.now ⊎ BeginsLit above word.now) }
{
    may_be_zero(word) || may_be_lit(word, above)
}

/// Whether a word can go on to the word 0, or to a hint.
fn may_be_hint(word: &[u8]) -> bool
    ensures { IsTrue result ↔ (MayBeZero word.now ⊎ BeginsHint word.now) }
{
    word.is_empty() || number_of(word, MOST_HINT).is_some()
}

/// Passes literals of ascending variables, and the 0 after them.
pub fn take_lits(alloc: Global, words: &mut Words<'_>) -> Result<Seq<Lit>, Stop>
    ensures ok { IfOk result (λ lits. Chain IsLitAbove lit_var 0 lits × Passes (row lit_word lits) words.old words.new) }
    ensures err { IfErr result (IsPartStop (Chain IsLitAbove lit_var 0) (row lit_word) words.old) }
{
    let mut lits: Seq<Lit> = Seq::new(alloc);
    let mut above = 0;
    loop {
        let word = match words.next() {
            NextWord::Missing => return Err(Stop::Bad),
            NextWord::Cut(word) => return Err(cut_off(may_end_or_go_on(word, above))),
            NextWord::Whole(word) => word,
        };
        if word == b"0".as_slice() {
            return Ok(lits);
        }
        let Some(lit) = lit_of(word, above) else {
            return Err(Stop::Bad);
        };
        above = lit.var();
        lits.push(lit)?;
    }
}

/// Passes hints, and the 0 after them.
pub fn take_hints(alloc: Global, words: &mut Words<'_>) -> Result<Seq<u64>, Stop>
    ensures ok { IfOk result (λ hints. Chain IsHint (λ h. h) 0 hints × Passes (row decimal hints) words.old words.new) }
    ensures err { IfErr result (IsPartStop (Chain IsHint (λ h. h) 0) (row decimal) words.old) }
{
    let mut hints: Seq<u64> = Seq::new(alloc);
    loop {
        let word = match words.next() {
            NextWord::Missing => return Err(Stop::Bad),
            NextWord::Cut(word) => return Err(cut_off(may_be_hint(word))),
            NextWord::Whole(word) => word,
        };
        let Some(hint) = number_of(word, MOST_HINT) else {
            return Err(Stop::Bad);
        };
        if hint == 0 {
            return Ok(hints);
        }
        hints.push(hint)?;
    }
}
