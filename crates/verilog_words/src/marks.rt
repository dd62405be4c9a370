//! Marks.
ghost use Rattle.std.specs.Prelude.{◌≡◌, ◌<◌, length, OnOk, IsTrue, if◌then◌else◌};
ghost use Rattle.sdcv_base.specs.Cursors.{rest, text_of};
ghost use Rattle.texts.specs.Rules.{Gives, offset_of};
ghost use Rattle.verilog_words.specs.declared.faults.SyntaxFault.TheVariants as fault;
ghost use Rattle.verilog_words.specs.Reads.{Fails};
ghost use Rattle.verilog_words.specs.Marks as spec;

use crate::blanks::{begins_attribute, skip_blanks};
use crate::faults::SyntaxFault;
use sdcv_base::Cursor;
use texts::byte_at;

/// The text breaks the grammar here.
pub fn refused(c: &Cursor<'_>) -> SyntaxFault
    ensures { result ≡ fault.Syntax (offset_of (length (text_of c.now)) (rest c.now)) }
{
    SyntaxFault::Syntax(c.place())
}

/// A mark stands here inside as many of its kind as may be open at once.
pub fn deep(c: &Cursor<'_>) -> SyntaxFault
    ensures { result ≡ fault.Deep (offset_of (length (text_of c.now)) (rest c.now)) }
{
    SyntaxFault::Deep(c.place())
}

/// Whether this mark comes next.
#[tactic(auto, using(crate::proofs::FrontLemmas::first_some))]
pub fn is_next(c: &Cursor<'_>, mark: u8) -> bool
    requires { 0 < mark }
    ensures value { result ≡ spec.is_next mark (rest c.now) }
    ensures some { IsTrue result → 0 < length (rest c.now) }
{
    byte_at(c.rest(), 0) == mark
}

/// Passes one byte, and what is passed over after it.
pub fn bump(c: &mut Cursor<'_>)
    requires { 0 < length (rest c.old) }
    ensures rest { rest c.new ≡ spec.after_mark (rest c.old) }
    ensures text { text_of c.new ≡ text_of c.old }
    ensures shorter { length (rest c.new) < length (rest c.old) }
{
    c.bump();
    skip_blanks(c, false);
}

/// Passes this mark where it comes next, and else nothing.
pub fn try_pass(c: &mut Cursor<'_>, mark: u8) -> bool
    requires { 0 < mark }
    ensures value { result ≡ spec.is_next mark (rest c.old) }
    ensures rest { rest c.new ≡ (if result then spec.after_mark (rest c.old) else rest c.old) }
    ensures text { text_of c.new ≡ text_of c.old }
    ensures shorter { IsTrue result → length (rest c.new) < length (rest c.old) }
{
    if !is_next(c, mark) {
        return false;
    }
    bump(c);
    true
}

/// Passes this mark.
#[tactic(auto, unfolding(crate::specs::Marks::mark_at))]
pub fn expect_mark(c: &mut Cursor<'_>, mark: u8) -> Result<(), SyntaxFault>
    requires { 0 < mark }
    ensures value { Gives (Fails (length (text_of c.old))) (λ _. rest c.new) result (spec.mark_at mark (length (text_of c.old)) (rest c.old)) }
    ensures text { text_of c.new ≡ text_of c.old }
    ensures shorter { OnOk result (length (rest c.new) < length (rest c.old)) }
{
    if !is_next(c, mark) {
        return Err(refused(c));
    }
    bump(c);
    Ok(())
}

/// Whether a `(` comes next that begins no attribute. Before a token such a one can only be an attribute that is not
/// closed.
#[tactic(auto, unfolding(crate::specs::Marks::opens_list))]
pub fn opens_list(c: &Cursor<'_>) -> bool
    ensures value { result ≡ spec.opens_list (rest c.now) }
    ensures some { IsTrue result → 0 < length (rest c.now) }
{
    is_next(c, b'(') && !begins_attribute(c.rest())
}

/// Passes the `(` of a list.
#[tactic(auto, unfolding(crate::specs::Marks::open_at))]
pub fn expect_open(c: &mut Cursor<'_>) -> Result<(), SyntaxFault>
    ensures value { Gives (Fails (length (text_of c.old))) (λ _. rest c.new) result (spec.open_at (length (text_of c.old)) (rest c.old)) }
    ensures text { text_of c.new ≡ text_of c.old }
    ensures shorter { OnOk result (length (rest c.new) < length (rest c.old)) }
{
    if !opens_list(c) {
        return Err(refused(c));
    }
    bump(c);
    Ok(())
}
