//! White space, and marks with white space before them.
ghost use Rattle.std.specs.Prelude.{◌≡◌, ◌≤◌, ◌<◌, length, slice_index};
ghost use Rattle.sdcv_base.specs.Cursors.{rest};
ghost use Rattle.lib_words.specs.Blanks.{after_space};
ghost use Rattle.lib_func.specs.Marks as spec;

use lib_words::skip_space;
use sdcv_base::Cursor;

/// Passes white space, and tells the byte that follows, or 0 at the end.
pub fn skip_blanks(c: &mut Cursor<'_>) -> u8
    ensures rest { rest c.new ≡ after_space (rest c.old) }
    ensures within { length (rest c.new) ≤ length (rest c.old) }
    ensures first { result ≡ slice_index (rest c.new) 0 }
    ensures some { 0 < result → 0 < length (rest c.new) }
{
    skip_space(c);
    c.peek().unwrap_or(0)
}

/// Passes each `mark`, with white space before it, and counts them.
pub fn count_marks(c: &mut Cursor<'_>, mark: u8) -> usize
    requires { 0 < mark }
    ensures value { (result, rest c.new) ≡ spec.marks mark 0 (length (rest c.old)) (rest c.old) }
    ensures within { length (rest c.new) ≤ length (rest c.old) }
{
    let most = c.rest().len();
    for count in 0..most {
        let mut next = *c;
        if skip_blanks(&mut next) != mark {
            return count;
        }
        next.bump();
        *c = next;
    }
    most
}
