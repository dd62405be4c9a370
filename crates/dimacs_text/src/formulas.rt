//! A text as a whole.
ghost use Rattle.std.specs.Prelude.{◌≡◌, ◌++◌, map, List, OnOk, IfOk, IfErr};
ghost use Rattle.dimacs_text.specs.Tokens.{Placed, placed_in, placed_words};
ghost use Rattle.dimacs_text.specs.Texts.{IsTextOf, IsHeaded};
ghost use Rattle.dimacs_text.specs.Faults.{IsStop, IsCause};
ghost use Rattle.dimacs_text.specs.Readings.{IsRead};

use crate::faults::DimacsFault;
use crate::headed::Headed;
use crate::readings::Reading;
use crate::tokens::{header, lines_of, number, words_of};
use std::alloc::Global;
use texts::byte_at;

/// Reads the words of a line that is neither a comment nor a header.
fn read_words(
    alloc: Global,
    reading: &mut Reading,
    at: u64,
    words: &[&[u8]],
) -> Result<(), DimacsFault>
    ensures ok { (placed : List Placed) → IsRead placed reading.old
        → OnOk result (IsRead (placed ++ placed_words at (map (λ word. word.now) words.entry.now)) reading.new) }
    ensures err { (placed : List Placed) → IsRead placed reading.old
        → IfErr result (IsStop (placed ++ placed_words at (map (λ word. word.now) words.entry.now))) }
{
    for place in 0..words.len() {
        let token = number(words[place]);
        reading.take(alloc, at, token)?;
    }
    Ok(())
}

/// Reads a line.
fn read_line(alloc: Global, reading: &mut Reading, at: u64, line: &[u8]) -> Result<(), DimacsFault>
    ensures ok { (placed : List Placed) → IsRead placed reading.old → OnOk result (IsRead (placed ++ placed_in at line.now) reading.new) }
    ensures err { (placed : List Placed) → IsRead placed reading.old → IfErr result (IsStop (placed ++ placed_in at line.now)) }
{
    let first = byte_at(line, 0);
    if first == b'c' {
        return Ok(());
    }
    let words = words_of(alloc, line)?;
    if first == b'p' {
        return reading.take(alloc, at, header(&words));
    }
    read_words(alloc, reading, at, &words)
}

/// The formula of a text. Its clauses are in normal form, and those with complementary literals are left out.
pub fn read_dimacs(alloc: Global, text: &[u8]) -> Result<Headed, DimacsFault>
    ensures ok { IfOk result (IsTextOf text.now) }
    ensures formula { IfOk result IsHeaded }
    ensures err { IfErr result (IsCause text.now) }
{
    let lines = lines_of(alloc, text)?;
    let mut reading = Reading::new(alloc);
    for place in 0..lines.len() {
        read_line(alloc, &mut reading, place as u64 + 1, lines[place])?;
    }
    reading.formula()
}
