//! Names without the indices of their bits.
ghost use Rattle.std.specs.Prelude.{◌≡◌, ◌==◌, ◌≤◌, ◌++◌, IfOk, OnOk, length};
ghost use Rattle.std.specs.List.{prefix_len, slice_split};
ghost use Rattle.std.specs.Char.{is_ascii_digit};
ghost use Rattle.report_rows.specs.Words.{texts};
ghost use Rattle.report_groups.specs.Stars as spec;

use sdcv_base::Name;
use std::alloc::{AllocError, Global};

// The pieces of a name between its opening brackets.
fn parts<'a>(alloc: Global, name: &'a [u8]) -> Result<Vec<&'a [u8]>, AllocError>
    ensures { IfOk result (λ all. texts all.items ≡ slice_split (λ b. b == 91) name.entry.now) }
{
    name.split(|byte| *byte == b'[').collect(alloc)
}

// How many digits a piece begins with.
fn digits_len(text: &[u8]) -> usize
    ensures value { result ≡ prefix_len is_ascii_digit text.now }
    ensures within { result ≤ length text.now }
{
    text.iter().take_while(|byte| byte.is_ascii_digit()).count()
}

// Appends what follows an opening bracket, without its index.
fn push_piece(out: &mut Vec<u8>, piece: &[u8]) -> Result<(), AllocError>
    ensures { OnOk result (out.new.items ≡ out.old.items ++ spec.after_bracket piece.now) }
{
    let digits = digits_len(piece);
    if digits > 0 && digits < piece.len() && piece[digits] == b']' {
        out.extend_from_slice(b"[*]")?;
        out.extend_from_slice(&piece[digits + 1..])
    } else {
        out.push(b'[')?;
        out.extend_from_slice(piece)
    }
}

// Appends the pieces after the first.
fn push_pieces(out: &mut Vec<u8>, pieces: &[&[u8]]) -> Result<(), AllocError>
    ensures { OnOk result (out.new.items ≡ out.old.items ++ spec.starred_rest (texts pieces.now)) }
{
    for piece in pieces {
        push_piece(out, piece)?;
    }
    Ok(())
}

/// The name with each `[digits]` as `[*]`.
pub(crate) fn starred(alloc: Global, name: &Name) -> Result<Name, AllocError>
    ensures { IfOk result (λ n. n ≡ spec.starred name.now) }
{
    let pieces = parts(alloc, name.as_bytes())?;
    let mut out = Vec::new(alloc);
    if let Some((first, others)) = pieces.split_first() {
        out.extend_from_slice(first)?;
        push_pieces(&mut out, others)?;
    }
    Ok(Name::from_vec(out))
}
