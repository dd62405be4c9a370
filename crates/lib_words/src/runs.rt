//! Arguments.
ghost use Rattle.std.specs.Prelude.{◌≡◌, ◌<◌, ◌≤◌, length, OnOk};
ghost use Rattle.sdcv_base.specs.Cursors.{rest, text_of};
ghost use Rattle.texts.specs.Rules.{Reads};
ghost use Rattle.lib_words.specs.Reads.{Fails};
ghost use Rattle.lib_words.specs.Runs as spec;

use crate::blanks::{is_blank, skip_blanks};
use crate::faults::GroupFault;
use crate::tokens::{is_next, refused, take_quoted};
use sdcv_base::Cursor;
use texts::{after, byte_at, has_two, upto};

fn is_run(byte: u8) -> bool
    ensures { result ≡ spec.is_run byte }
{
    !(byte.is_ascii_whitespace() || byte == b',' || byte == b'(' || byte == b')' || byte == b'"')
}

/// Whether a run ends here: at a comment, a backslash directly before a newline, or a byte that no run has.
fn ends_run(text: &[u8]) -> bool
    ensures { result ≡ spec.ends_run text.now }
{
    has_two(text, b'/', b'*') || has_two(text, b'\\', b'\n') || !is_run(byte_at(text, 0))
}

/// The length of the run that a text begins with.
fn run_len(text: &[u8]) -> usize
    ensures value { result ≡ spec.run_len text.now }
    ensures within { result ≤ length text.now }
{
    for i in 0..text.len() {
        if ends_run(after(text, i)) {
            return i;
        }
    }
    text.len()
}

/// Takes a run, and nothing after it.
#[tactic(auto, unfolding(crate::specs::Runs::run_at))]
fn take_run<'a>(c: &mut Cursor<'a>) -> Result<&'a [u8], GroupFault>
    ensures value { Reads c.old c.new Fails (λ n. n.now) result spec.run_at }
    ensures text { text_of c.new ≡ text_of c.old }
    ensures shorter { OnOk result (length (rest c.new) < length (rest c.old)) }
{
    let text = c.rest();
    let len = run_len(text);
    if len == 0 {
        return Err(refused(c));
    }
    c.skip(len);
    Ok(upto(text, len))
}

fn take_word<'a>(c: &mut Cursor<'a>) -> Result<&'a [u8], GroupFault>
    ensures value { Reads c.old c.new Fails (λ n. n.now) result spec.word_at }
    ensures text { text_of c.new ≡ text_of c.old }
    ensures shorter { OnOk result (length (rest c.new) < length (rest c.old)) }
{
    if is_next(c, b'"') {
        take_quoted(c)
    } else {
        take_run(c)
    }
}

/// Whether a text begins with what may part an argument from what follows it.
fn is_parted(text: &[u8]) -> bool
    ensures { result ≡ spec.is_parted text.now }
{
    let byte = byte_at(text, 0);
    is_blank(text) || byte == b',' || byte == b')' || has_two(text, b'/', b'*')
}

/// Takes an argument, and the white space and comments after it.
#[tactic(auto, unfolding(crate::specs::Runs::argument_at))]
pub fn take_argument<'a>(c: &mut Cursor<'a>) -> Result<&'a [u8], GroupFault>
    ensures value { Reads c.old c.new Fails (λ n. n.now) result spec.argument_at }
    ensures text { text_of c.new ≡ text_of c.old }
    ensures shorter { OnOk result (length (rest c.new) < length (rest c.old)) }
{
    let word = take_word(c)?;
    if !is_parted(c.rest()) {
        return Err(refused(c));
    }
    skip_blanks(c);
    Ok(word)
}
