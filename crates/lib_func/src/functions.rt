//! Functions by their grammar.
ghost use Rattle.std.specs.Prelude.{◌≡◌, ◌<◌, length, OnOk, IfOk, IfSome, Some, slice_index};
ghost use Rattle.sdcv_base.specs.Cursors.{rest};
ghost use Rattle.texts.specs.Reads.{Gives};
ghost use Rattle.texts.specs.Rules.{most_nested};
ghost use Rattle.lib_func.specs.Fails.{Fails, FailsWhole};
ghost use Rattle.lib_func.specs.Functions as spec;
ghost use Rattle.lib_func.specs.Functions.{within};

use crate::exprs::{Expr, Term};
use crate::lows::Low;
use crate::marks::{count_marks, skip_blanks};
use crate::operators::{Level, try_operator};
use crate::stops::Stop;
use sdcv_base::{Cursor, Name};
use std::alloc::{AllocError, Global};
use texts::{MOST_NESTED, is_letter, upto, word_len};

/// The function that a whole text is, and `None` exactly where it is none, or one whose parentheses nest deeper than 256
/// or whose tree is higher than that.
///
/// Only parentheses recurse: a chain of operators is a loop, and many `!` are a count. No taller tree is built.
pub fn read_function(alloc: Global, text: &[u8]) -> Result<Option<Expr>, AllocError>
    ensures low { IfOk result (λ found. found ≡ spec.low_function text.now) }
    ensures same { IfOk result (λ found. IfSome found (λ f. spec.function_of text.now ≡ Some f)) }
{
    match whole(alloc, text) {
        Ok(found) => Ok(Some(found.expr)),
        Err(Stop::NoFunction) => Ok(None),
        Err(Stop::Deep) => Ok(None),
        Err(Stop::Memory) => Err(AllocError),
    }
}

/// The same, and why there is none.
fn whole(alloc: Global, text: &[u8]) -> Result<Low, Stop>
    ensures { Gives FailsWhole (λ low. low.expr) result (spec.function_in most_nested text.now) }
{
    let mut c = Cursor::new(text);
    let found = chain(alloc, &mut c, Level::Or, MOST_NESTED)?;
    skip_blanks(&mut c);
    match c.peek() {
        None => Ok(found),
        Some(_) => Err(Stop::NoFunction),
    }
}

/// Operands with the level's operators between them.
#[cycle(chain)]
fn chain(alloc: Global, c: &mut Cursor<'_>, level: Level, depth: usize) -> Result<Low, Stop>
    ensures value { Gives Fails (λ low. (low.expr, rest c.new)) result (spec.chain_at depth level (rest c.old)) }
    ensures shorter { OnOk result (length (rest c.new) < length (rest c.old)) }
{
    let mut found = operand(alloc, c, level, depth)?;
    'operands: loop {
        if !try_operator(c, level) {
            return Ok(found);
        }
        let next = operand(alloc, c, level, depth)?;
        found = Low::joined(alloc, level, found, next)?;
    }
}

#[cycle(chain)]
fn operand(alloc: Global, c: &mut Cursor<'_>, level: Level, depth: usize) -> Result<Low, Stop>
    ensures value { Gives Fails (λ low. (low.expr, rest c.new)) result (spec.operand_at depth level (rest c.old)) }
    ensures shorter { OnOk result (length (rest c.new) < length (rest c.old)) }
{
    match level {
        Level::Or => chain(alloc, c, Level::And, depth),
        Level::And => chain(alloc, c, Level::Xor, depth),
        Level::Xor => inverted(alloc, c, depth),
    }
}

/// Any number of `!` before an atom, and of `'` after it.
#[cycle(chain)]
#[tactic(auto, unfolding(crate::specs::Functions::inverted_in))]
fn inverted(alloc: Global, c: &mut Cursor<'_>, depth: usize) -> Result<Low, Stop>
    ensures value { Gives Fails (λ low. (low.expr, rest c.new)) result (spec.inverted_in (within depth) (rest c.old)) }
    ensures shorter { OnOk result (length (rest c.new) < length (rest c.old)) }
{
    let before = count_marks(c, b'!');
    let atom = atom(alloc, c, depth)?;
    let after = count_marks(c, b'\'');
    let found = atom.inverted(alloc, after)?;
    found.inverted(alloc, before)
}

#[cycle(chain)]
#[tactic(auto, unfolding(crate::specs::Functions::atom_in, crate::specs::Functions::within))]
fn atom(alloc: Global, c: &mut Cursor<'_>, depth: usize) -> Result<Low, Stop>
    ensures value { Gives Fails (λ low. (low.expr, rest c.new)) result (spec.atom_in (within depth) (rest c.old)) }
    ensures shorter { OnOk result (length (rest c.new) < length (rest c.old)) }
{
    let byte = skip_blanks(c);
    if byte != b'(' {
        return leaf(alloc, c, byte);
    }
    if depth == 0 {
        return Err(Stop::NoFunction);
    }
    c.bump();
    let found = chain(alloc, c, Level::Or, depth - 1)?;
    close(c, found)
}

/// A constant or a name, whose first byte is given.
#[tactic(auto, unfolding(crate::specs::Functions::leaf_at))]
fn leaf(alloc: Global, c: &mut Cursor<'_>, byte: u8) -> Result<Low, Stop>
    requires { (byte ≡ slice_index (rest c.old) 0) × (0 < byte → 0 < length (rest c.old)) }
    ensures value { Gives Fails (λ low. (low.expr, rest c.new)) result (spec.leaf_at (rest c.old)) }
    ensures shorter { OnOk result (length (rest c.new) < length (rest c.old)) }
{
    if byte == b'0' {
        c.bump();
        Ok(Low::leaf(Term::Zero))
    } else if byte == b'1' {
        c.bump();
        Ok(Low::leaf(Term::One))
    } else if is_letter(byte) {
        let text = c.rest();
        let len = word_len(text);
        let name = Name::new(alloc, upto(text, len))?;
        c.skip(len);
        Ok(Low::leaf(Term::Name(name)))
    } else {
        Err(Stop::NoFunction)
    }
}

/// The closing parenthesis after an expression.
#[tactic(auto, unfolding(crate::specs::Functions::closed))]
fn close(c: &mut Cursor<'_>, found: Low) -> Result<Low, Stop>
    ensures value { Gives Fails (λ low. (low.expr, rest c.new)) result (spec.closed (found.expr, rest c.old)) }
    ensures shorter { OnOk result (length (rest c.new) < length (rest c.old)) }
{
    if skip_blanks(c) != b')' {
        return Err(Stop::NoFunction);
    }
    c.bump();
    Ok(found)
}
