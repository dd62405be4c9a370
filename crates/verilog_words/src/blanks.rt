//! White space, comments, attributes and directives.
ghost use Rattle.std.specs.Prelude.{◌≡◌, ◌≤◌, length};
ghost use Rattle.std.specs.List.{prefix_len};
ghost use Rattle.sdcv_base.specs.Cursors.{rest, text_of};
ghost use Rattle.verilog_words.specs.Blanks as spec;

use sdcv_base::Cursor;
use texts::{after, byte_at, closed_by, has_two};

/// The length of the line at the front, without its newline.
fn line_len(text: &[u8]) -> usize
    ensures value { result ≡ spec.line_len text.now }
    ensures within { result ≤ length text.now }
{
    text.iter().take_while(|byte| **byte != b'\n').count()
}

/// The length of what two bytes open and `*` with this byte closes, and 0 where it is not closed.
fn closed_len(text: &[u8], close: u8) -> usize
    requires opened { 2 ≤ length text.now }
    requires close { 1 ≤ close }
    ensures value { result ≡ spec.closed_len close text.now }
    ensures within { result ≤ length text.now }
{
    match closed_by(after(text, 2), b'*', close) {
        Some(len) => len + 2,
        None => 0,
    }
}

/// Whether an attribute begins a text, be it closed or not.
pub(crate) fn begins_attribute(text: &[u8]) -> bool
    ensures { result ≡ spec.begins_attribute text.now }
{
    has_two(text, b'(', b'*') && byte_at(text, 2) != b')'
}

#[tactic(auto, unfolding(crate::specs::Blanks::begins_directive))]
fn begins_directive(text: &[u8]) -> bool
    ensures { result ≡ spec.begins_directive text.now }
{
    text.starts_with("`timescale".as_bytes())
        || text.starts_with("`default_nettype".as_bytes())
        || text.starts_with("`celldefine".as_bytes())
        || text.starts_with("`endcelldefine".as_bytes())
        || text.starts_with("`resetall".as_bytes())
}

/// The length of the piece at the front that is passed over, and 0 where none stands there; `fresh` where a line begins.
#[tactic(auto, unfolding(crate::specs::Blanks::blank_len))]
fn blank_len(text: &[u8], fresh: bool) -> usize
    ensures value { result ≡ spec.blank_len fresh text.now }
    ensures within { result ≤ length text.now }
{
    if byte_at(text, 0).is_ascii_whitespace() {
        1
    } else if has_two(text, b'/', b'/') {
        line_len(text)
    } else if has_two(text, b'/', b'*') {
        closed_len(text, b'/')
    } else if begins_attribute(text) {
        closed_len(text, b')')
    } else if fresh && begins_directive(text) {
        line_len(text)
    } else {
        0
    }
}

/// Passes white space, comments, attributes and directives. `fresh` says whether a line begins here, as at the text's
/// start and not after a token.
pub fn skip_blanks(c: &mut Cursor<'_>, mut fresh: bool)
    ensures rest { rest c.new ≡ spec.after_blanks fresh (rest c.old) }
    ensures text { text_of c.new ≡ text_of c.old }
    ensures within { length (rest c.new) ≤ length (rest c.old) }
{
    'pieces: loop {
        let text = c.rest();
        let len = blank_len(text, fresh);
        if len == 0 {
            return;
        }
        fresh = byte_at(text, 0) == b'\n';
        c.skip(len);
    }
}
