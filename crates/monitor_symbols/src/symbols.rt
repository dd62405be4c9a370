//! The lines of the symbol table.
ghost use Rattle.std.specs.Prelude.{◌≡◌, ◌++◌, IfOk, OnOk};
ghost use Rattle.sdcv_base.specs.Seqs.{each_at};
ghost use Rattle.monitor_symbols.specs.Symbols as spec;

use crate::latches::latch_names;
use claim_monitor::Sizes;
use linked_types::Names;
use net_model::{Claim, Design};
use sdcv_base::{Name, Seq, push_decimal};
use std::alloc::{AllocError, Global};

/// The line of a latch, by its number.
fn push_symbol(
    alloc: Global,
    text: &mut Vec<u8>,
    number: usize,
    name: &Name,
) -> Result<(), AllocError>
    ensures { OnOk result (text.new.items ≡ text.old.items ++ spec.symbol number name.now) }
{
    text.push(b'l')?;
    push_decimal(alloc, text, number as u64)?;
    text.push(b' ')?;
    text.extend_from_slice(name.as_bytes())?;
    Ok(text.push(b'\n')?)
}

/// The lines of some latches, numbered from 0.
fn lines_of(alloc: Global, latches: &Seq<Name>) -> Result<Vec<u8>, AllocError>
    ensures { IfOk result (λ text. text.items ≡ each_at spec.symbol 0 latches.now) }
{
    let mut text = Vec::new(alloc);
    for number in 0..latches.len() {
        push_symbol(alloc, &mut text, number, latches.item(number))?;
    }
    Ok(text)
}

/// A line `lK NAME` for each latch of the monitor of a claim, K from 0, to stand after the conjunctions of its AIGER text.
pub fn symbols_text(
    alloc: Global,
    names: &Names,
    design: &Design,
    claim: &Claim,
) -> Result<Vec<u8>, AllocError>
    ensures { IfOk result (λ text. text.items ≡ spec.symbols_text names.now design.now claim.now) }
{
    let sizes = Sizes::of(design, claim);
    let latches = latch_names(alloc, names.cells.as_slice(), &sizes)?;
    lines_of(alloc, &latches)
}
