//! Parts of a line that are one word each, and its end.
ghost use Rattle.std.specs.Prelude.{◌≡◌, ◌≢◌, ◌≤◌, ◌<◌, [], ◌∷◌, IfOk, IfErr, OnOk, length};
ghost use Rattle.std.specs.Fmt.{decimal};
ghost use Rattle.cert_words.specs.Numbers.{lit_word, IsLitAbove};
ghost use Rattle.cert_words.specs.Parts.{left, one, Passes, IsPartStop};

use crate::numbers::{lit_of, may_be_lit, may_be_number, number_of};
use crate::stops::{Stop, cut_off};
use crate::words::{NextWord, Words};
use proof_log::Lit;

/// Passes this word.
pub fn take_word(words: &mut Words<'_>, due: &[u8]) -> Result<(), Stop>
    ensures ok { OnOk result (Passes (due.now ∷ []) words.old words.new) }
    ensures err { IfErr result (IsPartStop (λ w. w ≡ due.now) (one (λ w. w)) words.old) }
    ensures told { IfErr result (λ e. e ≢ Stop.Memory) }
{
    match words.next() {
        NextWord::Missing => Err(Stop::Bad),
        NextWord::Cut(word) => Err(cut_off(due.strip_prefix(word).is_some())),
        NextWord::Whole(word) => { if word == due { Ok(()) } else { Err(Stop::Bad) } }
    }
}

/// Passes a number that is at most so large.
pub fn take_number(words: &mut Words<'_>, most: u64) -> Result<u64, Stop>
    ensures ok { IfOk result (λ n. (n ≤ most) × Passes (one decimal n) words.old words.new) }
    ensures err { IfErr result (IsPartStop (λ n. n ≤ most) (one decimal) words.old) }
    ensures told { IfErr result (λ e. e ≢ Stop.Memory) }
{
    match words.next() {
        NextWord::Missing => Err(Stop::Bad),
        NextWord::Cut(word) => Err(cut_off(may_be_number(word, most))),
        NextWord::Whole(word) => match number_of(word, most) {
            Some(number) => Ok(number),
            None => Err(Stop::Bad),
        },
    }
}

/// Passes a literal whose variable is above another one.
pub fn take_lit(words: &mut Words<'_>, above: u32) -> Result<Lit, Stop>
    ensures ok { IfOk result (λ l. IsLitAbove above l × Passes (one lit_word l) words.old words.new) }
    ensures err { IfErr result (IsPartStop (IsLitAbove above) (one lit_word) words.old) }
    ensures told { IfErr result (λ e. e ≢ Stop.Memory) }
{
    match words.next() {
        NextWord::Missing => Err(Stop::Bad),
        NextWord::Cut(word) => Err(cut_off(may_be_lit(word, above))),
        NextWord::Whole(word) => match lit_of(word, above) {
            Some(lit) => Ok(lit),
            None => Err(Stop::Bad),
        },
    }
}

/// Whether a line ends here.
pub fn take_end(words: &Words<'_>) -> Result<(), Stop>
    ensures ok { OnOk result (left words.now ≡ []) }
    ensures err { IfErr result (λ e. (e ≡ Stop.Bad) × (0 < length (left words.now))) }
{
    if words.is_done() {
        Ok(())
    } else {
        Err(Stop::Bad)
    }
}
