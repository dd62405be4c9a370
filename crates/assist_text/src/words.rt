//! The words of a line.
ghost use Rattle.std.specs.Prelude.{◌≡◌, ◌≢◌, ◌++◌, ◌∷◌, [], ℕ, Bool, List, filter, MatchOption, IfErr, IfOk, OnOk};
ghost use Rattle.assist_text.specs.Lines as spec;
ghost use Rattle.assist_text.specs.Clauses.{AreSaid, IsOnce, IsWordOf};
ghost use Rattle.assist_text.specs.Causes.{IsWordCause, IsNameCause};

use assist_types::AssistFault;
use sdcv_base::{Name, Seq, Setting};
use std::alloc::Global;
use texts::NameTable;

fn is_blank(byte: u8) -> bool
    ensures { result ≡ spec.is_blank byte }
{
    byte == b' ' || byte == b'\t' || byte == b'\r'
}

/// The value that a digit stands for.
fn digit_value(byte: u8) -> Option<bool>
    ensures { MatchOption result ((value : Bool) → byte ≢ spec.digit value) (λ value. byte ≡ spec.digit value) }
{
    match byte {
        b'0' => Some(false),
        b'1' => Some(true),
        _ => None,
    }
}

/// The name and the value that a word says.
fn said(word: &[u8]) -> Option<(&[u8], bool)>
    ensures { MatchOption result ((name : List ℕ) (value : Bool) → IsWordOf name value word.now → ⊥) (λ s. IsWordOf s.0.now s.1 word.now) }
{
    let count = word.len();
    if count < 3 || word[count - 2] != b'=' {
        return None;
    }
    let value = digit_value(word[count - 1])?;
    Some((&word[..count - 2], value))
}

/// Adds what a part of a line between its blanks says, where it is a word.
fn add_part(
    alloc: Global,
    lits: &mut Seq<Setting>,
    line: u64,
    part: &[u8],
) -> Result<(), AssistFault>
    ensures ok { (words : List (List ℕ)) → AreSaid words lits.old → OnOk result (AreSaid (words ++ filter spec.is_word (part.now ∷ [])) lits.new) }
    ensures err { IfErr result (IsWordCause line (filter spec.is_word (part.now ∷ []))) }
{
    if part.is_empty() {
        return Ok(());
    }
    let Some((name, value)) = said(part) else {
        return Err(AssistFault::Syntax(line));
    };
    let name = Name::new(alloc, name)?;
    lits.push(Setting { name, value })?;
    Ok(())
}

/// What the words of a line say, in their order.
pub(crate) fn settings(alloc: Global, line: u64, text: &[u8]) -> Result<Seq<Setting>, AssistFault>
    ensures ok { IfOk result (AreSaid (spec.words_of text.now)) }
    ensures err { IfErr result (IsWordCause line (spec.words_of text.now)) }
{
    let mut lits = Seq::new(alloc);
    for part in text.split(|byte| is_blank(*byte)) {
        add_part(alloc, &mut lits, line, part)?;
    }
    Ok(lits)
}

/// Sees that no name stands twice.
pub(crate) fn check_names(alloc: Global, line: u64, lits: &Seq<Setting>) -> Result<(), AssistFault>
    ensures ok { OnOk result (IsOnce lits.now) }
    ensures err { IfErr result (IsNameCause line lits.now) }
{
    let mut names = NameTable::new(alloc);
    for lit in lits.as_slice() {
        if !names.add(alloc, &lit.name)? {
            return Err(AssistFault::Twice(line, lit.name.copy(alloc)?));
        }
    }
    Ok(())
}
