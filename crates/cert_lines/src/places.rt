//! The line at a place of a text.
ghost use Rattle.std.specs.Prelude.{◌≡◌, ◌==◌, ◌+◌, ◌≤◌, ◌<◌, not, length, take};
ghost use Rattle.std.specs.List.{prefix_len};
ghost use Rattle.sdcv_base.specs.Cursors.{rest, place_of};
ghost use Rattle.cert_lines.specs.Places.{IsNextLine, fault_of};

use crate::faults::Fault;
use cert_words::Stop;
use sdcv_base::Cursor;

/// A line of a text without its newline, whether the text ends before that, and the offsets of the line and the text's end.
#[derive(Clone, Copy)]
pub struct Line<'a> {
    pub text: &'a [u8],
    pub cut: bool,
    pub at: usize,
    pub end: usize,
}

/// How many bytes come before the first newline, or before the end.
fn line_len(text: &[u8]) -> usize
    ensures value { result ≡ prefix_len (λ b. not (b == 10)) text.now }
    ensures within { result ≤ length text.now }
{
    text.iter().take_while(|byte| **byte != b'\n').count()
}

/// The line that is next.
pub fn next_line<'a>(cursor: &Cursor<'a>) -> Line<'a>
    ensures { IsNextLine (rest cursor.now) (place_of cursor.now) result.text.now result.cut result.at result.end }
{
    let text = cursor.rest();
    let len = line_len(text);
    let mut end = *cursor;
    end.skip(text.len());
    Line {
        text: &text[..len],
        cut: len == text.len(),
        at: cursor.place(),
        end: end.place(),
    }
}

/// Where the bytes stop, by what a reader of the line said.
pub fn fault_of(line: &Line<'_>, stop: Stop) -> Fault
    ensures { result ≡ fault_of line.now.at line.now.end stop }
{
    match stop {
        Stop::Bad => Fault::Form(line.at),
        Stop::Early => Fault::Form(line.end),
        Stop::Memory => Fault::Memory,
    }
}
