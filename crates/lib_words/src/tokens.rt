//! Marks, names and quoted texts.
ghost use Rattle.std.specs.Prelude.{◌≡◌, ◌<◌, ◌≤◌, length, drop, OnOk, IsTrue, if◌then◌else◌};
ghost use Rattle.std.specs.List.{prefix_len};
ghost use Rattle.sdcv_base.specs.Cursors.{rest, text_of};
ghost use Rattle.lib_words.specs.declared.faults.GroupFault.TheVariants as fault;
ghost use Rattle.texts.specs.Rules.{Gives, Reads, offset_of};
ghost use Rattle.lib_words.specs.Reads.{Fails};
ghost use Rattle.lib_words.specs.Tokens as spec;

use crate::blanks::skip_blanks;
use crate::faults::GroupFault;
use sdcv_base::Cursor;
use texts::{after, byte_at, upto, word_len};

/// The text breaks the grammar here.
pub fn refused(c: &Cursor<'_>) -> GroupFault
    ensures { result ≡ fault.Syntax (offset_of (length (text_of c.now)) (rest c.now)) }
{
    GroupFault::Syntax(c.place())
}

/// A group too many is opened here.
pub fn deep(c: &Cursor<'_>) -> GroupFault
    ensures { result ≡ fault.Deep (offset_of (length (text_of c.now)) (rest c.now)) }
{
    GroupFault::Deep(c.place())
}

/// Whether this mark comes next.
#[tactic(auto, using(crate::proofs::TokenLemmas::first_some))]
pub fn is_next(c: &Cursor<'_>, mark: u8) -> bool
    requires { 0 < mark }
    ensures value { result ≡ spec.is_next mark (rest c.now) }
    ensures some { IsTrue result → 0 < length (rest c.now) }
{
    byte_at(c.rest(), 0) == mark
}

/// Passes one byte, and the white space and comments after it.
fn bump(c: &mut Cursor<'_>)
    requires { 0 < length (rest c.old) }
    ensures rest { rest c.new ≡ spec.after_mark (rest c.old) }
    ensures text { text_of c.new ≡ text_of c.old }
    ensures shorter { length (rest c.new) < length (rest c.old) }
{
    c.bump();
    skip_blanks(c);
}

/// Passes this mark where it comes next, and else nothing.
pub fn try_mark(c: &mut Cursor<'_>, mark: u8) -> bool
    requires { 0 < mark }
    ensures value { result ≡ spec.is_next mark (rest c.old) }
    ensures rest { rest c.new ≡ (if result then spec.after_mark (rest c.old) else rest c.old) }
    ensures text { text_of c.new ≡ text_of c.old }
    ensures shorter { IsTrue result → length (rest c.new) < length (rest c.old) }
{
    if !is_next(c, mark) {
        return false;
    }
    bump(c);
    true
}

/// Passes this mark.
#[tactic(auto, unfolding(crate::specs::Tokens::mark_at))]
pub fn expect_mark(c: &mut Cursor<'_>, mark: u8) -> Result<(), GroupFault>
    requires { 0 < mark }
    ensures value { Gives (Fails (length (text_of c.old))) (λ _. rest c.new) result (spec.mark_at mark (length (text_of c.old)) (rest c.old)) }
    ensures text { text_of c.new ≡ text_of c.old }
    ensures shorter { OnOk result (length (rest c.new) < length (rest c.old)) }
{
    if !is_next(c, mark) {
        return Err(refused(c));
    }
    bump(c);
    Ok(())
}

/// Takes a name, and the white space and comments after it.
#[tactic(auto, unfolding(crate::specs::Tokens::name_at))]
pub fn take_name<'a>(c: &mut Cursor<'a>) -> Result<&'a [u8], GroupFault>
    ensures value { Reads c.old c.new Fails (λ n. n.now) result spec.name_at }
    ensures text { text_of c.new ≡ text_of c.old }
    ensures shorter { OnOk result (length (rest c.new) < length (rest c.old)) }
{
    let text = c.rest();
    let len = word_len(text);
    if len == 0 {
        return Err(refused(c));
    }
    c.skip(len);
    skip_blanks(c);
    Ok(upto(text, len))
}

fn quoted_len(text: &[u8]) -> usize
    ensures value { result ≡ prefix_len spec.is_no_quote text.now }
    ensures within { result ≤ length text.now }
{
    text.iter().take_while(|byte| **byte != b'"').count()
}

/// Takes a quoted text, and nothing after it.
#[tactic(auto, unfolding(crate::specs::Tokens::quoted_at))]
pub fn take_quoted<'a>(c: &mut Cursor<'a>) -> Result<&'a [u8], GroupFault>
    requires { 0 < length (rest c.old) }
    ensures value { Reads c.old c.new Fails (λ n. n.now) result spec.quoted_at }
    ensures text { text_of c.new ≡ text_of c.old }
    ensures shorter { OnOk result (length (rest c.new) < length (rest c.old)) }
{
    let text = after(c.rest(), 1);
    let len = quoted_len(text);
    if len == text.len() {
        return Err(refused(c));
    }
    c.skip(len + 2);
    Ok(upto(text, len))
}
