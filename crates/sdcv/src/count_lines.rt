//! A sign of life: one line of a terminal that counts the judged pairs.
use sdcv_top::Progress;
use std::io::Write;

/// As many blanks as the longest line has bytes: at most 100,000 pairs are selected.
const BLANKS: &str = "                        ";

/// The line, which is written over itself. What can't be written is dropped.
#[derive(Drop)]
pub struct CountLine<E> {
    err: E,
    /// Something stands in it.
    stands: bool,
}

impl<E: Write> CountLine<E> {
    /// Nothing stands in the line yet.
    pub fn new(err: E) -> CountLine<E> {
        CountLine { err, stands: false }
    }

    /// Leaves the line empty, with its next byte at the front.
    pub fn clear(&mut self) {
        if self.stands {
            let _ = write!(self.err, "\r{BLANKS}\r");
            self.stands = false;
        }
    }
}

impl<E: Write> Progress for CountLine<E> {
    fn judged(&mut self, done: usize, all: usize) {
        if done < all {
            let _ = write!(self.err, "\rjudging {done} of {all}");
            self.stands = true;
        } else {
            self.clear();
        }
    }
}
