//! The text of a stimulus.
ghost use Rattle.std.specs.Prelude.{◌≡◌, ◌++◌, IfOk, OnOk};
ghost use Rattle.witness_replay.specs.StimulusTexts.{digits_of, line_of, title_of, head_of, block_text};

use net_model::Stimulus;
use sdcv_base::{Seq, push_decimal};
use std::alloc::{AllocError, Global};

/// Appends bits as digits, or `-` where there are none.
fn push_bits(out: &mut Vec<u8>, bits: &Seq<bool>) -> Result<(), AllocError>
    ensures { OnOk result (out.new.items ≡ out.old.items ++ digits_of bits.now) }
{
    if bits.len() == 0 {
        out.push(b'-')?;
        return Ok(());
    }
    for bit in bits.as_slice() {
        out.push(if *bit { b'1' } else { b'0' })?;
    }
    Ok(())
}

/// Appends the line of a word and bits.
fn push_row(out: &mut Vec<u8>, word: &[u8], bits: &Seq<bool>) -> Result<(), AllocError>
    ensures { OnOk result (out.new.items ≡ out.old.items ++ line_of (word.now ++ digits_of bits.now)) }
{
    out.extend_from_slice(word)?;
    push_bits(out, bits)?;
    out.push(b'\n')?;
    Ok(())
}

/// Appends what the first line of a block of this number begins with.
pub fn push_title(alloc: Global, out: &mut Vec<u8>, number: u64) -> Result<(), AllocError>
    ensures { OnOk result (out.new.items ≡ out.old.items ++ title_of number) }
{
    out.extend_from_slice(b"stimulus ")?;
    push_decimal(alloc, out, number)
}

/// Appends the first line of a block.
fn push_head(alloc: Global, out: &mut Vec<u8>, number: u64, count: u64) -> Result<(), AllocError>
    ensures { OnOk result (out.new.items ≡ out.old.items ++ line_of (head_of number count)) }
{
    push_title(alloc, out, number)?;
    out.extend_from_slice(b" cycles ")?;
    push_decimal(alloc, out, count)?;
    out.push(b'\n')?;
    Ok(())
}

/// The block of a stimulus in a report: the lines `stimulus NUMBER cycles COUNT`, `state BITS`, one `input BITS` for each
/// cycle, and `end`.
pub fn write_stim(alloc: Global, number: u64, stimulus: &Stimulus) -> Result<Vec<u8>, AllocError>
    ensures { IfOk result (λ text. text.items ≡ block_text number stimulus.now) }
{
    let mut out = Vec::new(alloc);
    push_head(alloc, &mut out, number, stimulus.inputs.len() as u64)?;
    push_row(&mut out, b"state ", &stimulus.state)?;
    for ins in stimulus.inputs.as_slice() {
        push_row(&mut out, b"input ", ins)?;
    }
    out.extend_from_slice(b"end\n")?;
    Ok(out)
}
