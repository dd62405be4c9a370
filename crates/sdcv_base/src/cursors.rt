//! A text and a place in it.
#![tactic(auto, unfolding(crate::specs::Cursors::rest, crate::specs::Cursors::text_of, crate::specs::Cursors::place_of))]

ghost use Rattle.std.specs.Prelude.{◌≡◌, ◌+◌, ◌<◌, ◌≤◌, length, drop, [], slice_index, MatchOption};

/// A text of bytes and a place in it, from 0 to the text's length.
#[derive(Clone, Copy)]
pub struct Cursor<'a> {
    text: &'a [u8],
    place: usize,
    ghost within: { place ≤ length text.now },
}

impl<'a> Cursor<'a> {
    ghost use Rattle.sdcv_base.specs.Cursors.{rest, place_of, text_of};

    pub fn new(text: &'a [u8]) -> Cursor<'a>
        ensures place { place_of result ≡ 0 }
        ensures text { text_of result ≡ text.now }
        ensures rest { rest result ≡ text.now }
    {
        Cursor { text, place: 0 }
    }

    /// How many bytes come before the place.
    pub fn place(&self) -> usize
        ensures value { result ≡ place_of self.now }
        ensures within { result ≤ length (text_of self.now) }
        ensures left { result + length (rest self.now) ≡ length (text_of self.now) }
    {
        self.place
    }

    /// The byte at the place, and `None` exactly at the end.
    pub fn peek(&self) -> Option<u8>
        ensures { MatchOption result (rest self.now ≡ []) (λ b. (0 < length (rest self.now)) × (slice_index (rest self.now) 0 ≡ b)) }
    {
        self.text.get(self.place).copied()
    }

    /// Passes one byte.
    pub fn bump(&mut self)
        requires { 0 < length (rest self.old) }
        ensures place { place_of self.new ≡ place_of self.old + 1 }
        ensures text { text_of self.new ≡ text_of self.old }
        ensures rest { rest self.new ≡ drop 1 (rest self.old) }
    {
        self.place += 1;
    }

    /// The bytes from the place on.
    pub fn rest(&self) -> &'a [u8]
        ensures { result.now ≡ rest self.now }
    {
        &self.text[self.place..]
    }

    /// Passes so many bytes.
    pub fn skip(&mut self, count: usize)
        requires { count ≤ length (rest self.old) }
        ensures place { place_of self.new ≡ place_of self.old + count }
        ensures text { text_of self.new ≡ text_of self.old }
        ensures rest { rest self.new ≡ drop count (rest self.old) }
    {
        self.place += count;
    }
}
