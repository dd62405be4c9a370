//! What parts words, and what may stand between commands.
ghost use Rattle.std.specs.Prelude.{◌≡◌, ◌<◌, ◌≤◌, ◌==◌, ◌&&◌, not, length, IsTrue};
ghost use Rattle.sdcv_base.specs.Cursors.{rest, text_of};
ghost use Rattle.sdc_words.specs.Blanks as spec;

use sdcv_base::Cursor;
use texts::{byte_at, has_two};

/// Whether this mark comes next.
#[tactic(auto, using(crate::proofs::BlankLemmas::first_some))]
pub fn is_next(text: &[u8], mark: u8) -> bool
    requires { 0 < mark }
    ensures value { result ≡ spec.is_next mark text.now }
    ensures some { IsTrue result → 0 < length text.now }
{
    byte_at(text, 0) == mark
}

/// The length of a gap between words, and 0 where none stands.
#[tactic(auto, unfolding(crate::specs::Blanks::gap_len))]
pub fn gap_len(text: &[u8]) -> usize
    ensures value { result ≡ spec.gap_len text.now }
    ensures within { result ≤ length text.now }
{
    if is_next(text, b' ') || is_next(text, b'\t') {
        1
    } else if has_two(text, b'\\', b'\n') {
        2
    } else {
        0
    }
}

/// Whether this is a backslash that takes the byte after it with it, where `is_taken` tells that one before takes this byte.
pub fn takes_next(is_taken: bool, byte: u8) -> bool
    ensures { result ≡ spec.takes_next is_taken byte }
{
    byte == b'\\' && !is_taken
}

fn ends_line(is_taken: bool, byte: u8) -> bool
    ensures { result ≡ (byte == 10 && not is_taken) }
{
    byte == b'\n' && !is_taken
}

/// How many bytes of a comment stand up to the end of its last line.
fn comment_len(text: &[u8]) -> usize
    ensures value { result ≡ spec.comment_len text.now }
    ensures within { result ≤ length text.now }
{
    let mut is_taken = false;
    for i in 0..text.len() {
        if ends_line(is_taken, text[i]) {
            return i;
        }
        is_taken = takes_next(is_taken, text[i]);
    }
    text.len()
}

/// The length of what may stand before a command, and 0 where nothing such stands.
#[tactic(auto, unfolding(crate::specs::Blanks::blank_len))]
fn blank_len(text: &[u8]) -> usize
    ensures value { result ≡ spec.blank_len text.now }
    ensures within { result ≤ length text.now }
{
    let gap = gap_len(text);
    if 0 < gap {
        gap
    } else if is_next(text, b'\n') || is_next(text, b';') {
        1
    } else if is_next(text, b'#') {
        comment_len(text)
    } else {
        0
    }
}

/// Passes all gaps.
pub fn pass_gaps(c: &mut Cursor<'_>)
    ensures rest { rest c.new ≡ spec.after_gaps (rest c.old) }
    ensures text { text_of c.new ≡ text_of c.old }
    ensures within { length (rest c.new) ≤ length (rest c.old) }
{
    'gaps: loop {
        let len = gap_len(c.rest());
        if len == 0 {
            return;
        }
        c.skip(len);
    }
}

/// Passes all that may stand before a command.
pub fn pass_blanks(c: &mut Cursor<'_>)
    ensures rest { rest c.new ≡ spec.after_blanks (rest c.old) }
    ensures text { text_of c.new ≡ text_of c.old }
    ensures within { length (rest c.new) ≤ length (rest c.old) }
{
    'blanks: loop {
        let len = blank_len(c.rest());
        if len == 0 {
            return;
        }
        c.skip(len);
    }
}
