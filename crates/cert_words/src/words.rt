//! The words of a line, one after another.
ghost use Rattle.std.specs.Prelude.{◌≡◌, ◌==◌, not, ◌≤◌, ◌∷◌, length};
ghost use Rattle.std.specs.List.{prefix_len};
ghost use Rattle.cert_words.specs.Words.{words};
ghost use Rattle.cert_words.specs.Parts.{words_after};

/// The words of a line that are left. A line that is cut off has one, its last, until it stops its reader.
#[derive(Clone, Copy)]
pub enum Words<'a> {
    Done,
    /// Those to the end of a whole line.
    Whole(&'a [u8]),
    /// Those to where a line is cut off.
    Cut(&'a [u8]),
}

/// What comes next.
#[derive(Clone, Copy)]
pub enum NextWord<'a> {
    Missing,
    /// A word that is whole.
    Whole(&'a [u8]),
    /// The last word of a line that is cut off, which may go on.
    Cut(&'a [u8]),
}

/// How many bytes come before the first space, or before the end.
fn word_len(text: &[u8]) -> usize
    ensures value { result ≡ prefix_len (λ b. not (b == 32)) text.now }
    ensures within { result ≤ length text.now }
{
    text.iter().take_while(|byte| **byte != b' ').count()
}

/// The first word, and the bytes after its space, where one ends it.
#[tactic(auto, using(crate::proofs::WordLemmas::words_last, crate::proofs::WordLemmas::words_more))]
fn split_word<'a>(text: &'a [u8]) -> (&'a [u8], Option<&'a [u8]>)
    ensures { words text.now ≡ result.0.now ∷ words_after result.1 }
{
    let (word, rest) = text.split_at(word_len(text));
    match rest.split_first() {
        Some((_space, rest)) => (word, Some(rest)),
        None => (word, None),
    }
}

impl<'a> Words<'a> {
    ghost use Rattle.std.specs.Prelude.{◌≡◌, []};
    ghost use Rattle.cert_words.specs.Parts.{left, no_words, IsAt, IsNext};

    /// The words of a line. A line may be cut off, so that its last word may go on.
    pub fn new(line: &'a [u8], cut: bool) -> Words<'a>
        ensures { IsAt line.now cut [] result }
    {
        if cut {
            Words::Cut(line)
        } else {
            Words::Whole(line)
        }
    }

    /// Passes the next word, where it is whole.
    pub fn next(&mut self) -> NextWord<'a>
        ensures { IsNext self.old self.new result }
    {
        match *self {
            Words::Done => NextWord::Missing,
            Words::Whole(text) => {
                let (word, rest) = split_word(text);
                *self = match rest {
                    Some(rest) => Words::Whole(rest),
                    None => Words::Done,
                };
                NextWord::Whole(word)
            }
            Words::Cut(text) => match split_word(text) {
                (word, Some(rest)) => {
                    *self = Words::Cut(rest);
                    NextWord::Whole(word)
                }
                (word, None) => NextWord::Cut(word),
            },
        }
    }

    /// Whether no word is left.
    pub fn is_done(&self) -> bool
        ensures { result ≡ no_words (left self.now) }
    {
        match self {
            Words::Done => true,
            Words::Whole(_text) => false,
            Words::Cut(_text) => false,
        }
    }
}
