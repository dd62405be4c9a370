//! White space, and white space and comments.
ghost use Rattle.std.specs.Prelude.{◌≡◌, ◌≤◌, length};
ghost use Rattle.sdcv_base.specs.Cursors.{rest, text_of};
ghost use Rattle.lib_words.specs.Blanks as spec;

use sdcv_base::Cursor;
use texts::{after, byte_at, closed_by, has_two};

/// Whether white space comes next: space, tab, newline, carriage return, form feed, or a backslash directly before a
/// newline.
pub fn is_blank(text: &[u8]) -> bool
    ensures { result ≡ spec.is_blank text.now }
{
    byte_at(text, 0).is_ascii_whitespace() || has_two(text, b'\\', b'\n')
}

/// Passes white space, and no comment.
pub fn skip_space(c: &mut Cursor<'_>)
    ensures rest { rest c.new ≡ spec.after_space (rest c.old) }
    ensures text { text_of c.new ≡ text_of c.old }
    ensures within { length (rest c.new) ≤ length (rest c.old) }
{
    'space: while is_blank(c.rest()) {
        c.bump();
    }
}

/// The length of the closed comment at the front, and 0 where none stands there.
#[tactic(auto, unfolding(crate::specs::Blanks::comment_len))]
pub(crate) fn comment_len(text: &[u8]) -> usize
    ensures value { result ≡ spec.comment_len text.now }
    ensures within { result ≤ length text.now }
{
    if !has_two(text, b'/', b'*') {
        return 0;
    }
    match closed_by(after(text, 2), b'*', b'/') {
        Some(len) => len + 2,
        None => 0,
    }
}

/// The length of a byte of white space or of the comment at the front, and 0 where neither stands there.
#[tactic(auto, unfolding(crate::specs::Blanks::blank_len))]
fn blank_len(text: &[u8]) -> usize
    ensures value { result ≡ spec.blank_len text.now }
    ensures within { result ≤ length text.now }
{
    if is_blank(text) { 1 } else { comment_len(text) }
}

/// Passes white space and comments.
pub(crate) fn skip_blanks(c: &mut Cursor<'_>)
    ensures rest { rest c.new ≡ spec.after_blanks (rest c.old) }
    ensures text { text_of c.new ≡ text_of c.old }
    ensures within { length (rest c.new) ≤ length (rest c.old) }
{
    'pieces: loop {
        let len = blank_len(c.rest());
        if len == 0 {
            return;
        }
        c.skip(len);
    }
}
