//! The words of a line of a list.
ghost use Rattle.std.specs.Prelude.{◌≡◌, ◌++◌, IfOk, OnOk};
ghost use Rattle.report_rows.specs.Words.{texts};
ghost use Rattle.accepted_lists.specs.Entries as spec;

use crate::cuts::cut;
use std::alloc::{AllocError, Global};

// Adds a word that is not empty.
fn add_word<'a>(words: &mut Vec<&'a [u8]>, piece: &'a [u8]) -> Result<(), AllocError>
    ensures { OnOk result (texts words.new.items ≡ texts words.old.items ++ spec.word_of piece.now) }
{
    if !piece.is_empty() {
        words.push(piece)?;
    }
    Ok(())
}

// Words up to a `#`, without empty ones.
fn before_remark<'a>(alloc: Global, pieces: &[&'a [u8]]) -> Result<Vec<&'a [u8]>, AllocError>
    ensures { IfOk result (λ all. texts all.items ≡ spec.before_remark (texts pieces.now)) }
{
    let mut words = Vec::new(alloc);
    for place in 0..pieces.len() {
        let piece = pieces[place];
        if piece == b"#".as_slice() {
            return Ok(words);
        }
        add_word(&mut words, piece)?;
    }
    Ok(words)
}

/// The words of a line.
pub(crate) fn entry_words<'a>(alloc: Global, line: &'a [u8]) -> Result<Vec<&'a [u8]>, AllocError>
    ensures { IfOk result (λ all. texts all.items ≡ spec.entry_words line.entry.now) }
{
    if line.starts_with(b"#") {
        return Ok(Vec::new(alloc));
    }
    let pieces = cut(alloc, line)?;
    before_remark(alloc, &pieces)
}
