//! Where a byte stands in a text.
ghost use Rattle.std.specs.Prelude.{◌≡◌, ◌==◌, ◌≤◌, ◌∷◌, [], not, length, take, drop};
ghost use Rattle.std.specs.List.{prefix_len};
ghost use Rattle.refusal_words.specs.Places as spec;
ghost use Rattle.refusal_words.specs.Places.{IsPlace};

/// A line and a column of a text, each from 1. The column counts bytes.
#[derive(Clone, Copy, Debug, PartialEq, Eq)]
pub struct Place {
    pub line: u64,
    pub column: u64,
}

/// The place of the byte before which so many stand. Past the end it is that of the end.
pub fn place_of(text: &[u8], offset: usize) -> Place
    ensures value { result ≡ spec.place_of text.now offset }
    ensures place { IsPlace text.now offset result }
{
    place_at(text, offset)
}

// The place after as many bytes, where there are so many.
fn place_at(text: &[u8], offset: usize) -> Place
    ensures { result ≡ spec.place_of text.now offset }
{
    place_after(&text[..offset.min(text.len())])
}

// The place right after a text.
fn place_after(text: &[u8]) -> Place
    ensures { result ≡ spec.place_after text.now }
{
    let mut place = Place { line: 1, column: 1 };
    for byte in text {
        if *byte == b'\n' {
            place.line += 1;
            place.column = 1;
        } else {
            place.column += 1;
        }
    }
    place
}

// How many bytes come before the first newline, or before the end.
fn line_len(text: &[u8]) -> usize
    ensures value { result ≡ prefix_len (λ b. not (b == 10)) text.now }
    ensures within { result ≤ length text.now }
{
    text.iter().take_while(|byte| **byte != b'\n').count()
}

// What follows the first bytes of a text, as many as there are of that many.
fn rest_from(text: &[u8], offset: usize) -> &[u8]
    ensures { result.now ≡ drop offset text.now }
{
    &text[offset.min(text.len())..]
}

/// The bytes of a text from an offset up to the line's end.
pub(crate) fn line_rest(text: &[u8], offset: usize) -> &[u8]
    ensures { result.now ≡ spec.line_rest text.now offset }
{
    let rest = rest_from(text, offset);
    &rest[..line_len(rest)]
}
