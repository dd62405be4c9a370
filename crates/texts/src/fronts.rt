//! What stands at the front of a text.
ghost use Rattle.std.specs.Prelude.{◌≡◌, ◌<◌, ◌≤◌, length, slice_index, take, drop, IfSome};
ghost use Rattle.texts.specs.Fronts as spec;

/// The byte at a place of a text, and 0 past its end.
pub fn byte_at(text: &[u8], place: usize) -> u8
    ensures { result ≡ slice_index text.now place }
{
    text.get(place).copied().unwrap_or(0)
}

/// Whether a text begins with these two bytes.
pub fn has_two(text: &[u8], a: u8, b: u8) -> bool
    ensures { result ≡ spec.has_two a b text.now }
{
    byte_at(text, 0) == a && byte_at(text, 1) == b
}

/// How many bytes stand up to and with the first place where these two stand, of which the second is not 0: so far reaches
/// what they close, as a comment.
pub fn closed_by(text: &[u8], a: u8, b: u8) -> Option<usize>
    requires { 0 < b }
    ensures value { result ≡ spec.closed_by a b text.now }
    ensures within { IfSome result (λ n. n ≤ length text.now) }
{
    for i in 0..text.len() {
        if has_two(after(text, i), a, b) {
            return Some(i + 2);
        }
    }
    None
}

/// What follows the first `count` bytes.
pub fn after(text: &[u8], count: usize) -> &[u8]
    requires { count ≤ length text.now }
    ensures { result.now ≡ drop count text.now }
{
    &text[count..]
}

/// The first `count` bytes.
pub fn upto(text: &[u8], count: usize) -> &[u8]
    requires { count ≤ length text.now }
    ensures { result.now ≡ take count text.now }
{
    &text[..count]
}
