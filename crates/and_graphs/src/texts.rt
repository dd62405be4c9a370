//! The text of a graph with latches.
ghost use Rattle.std.specs.Prelude.{◌≡◌, ◌++◌, ◌+◌, ◌*◌, IfOk, OnOk};
ghost use Rattle.and_graphs.specs.Texts.{row, header, input_rows, rows_from};
ghost use Rattle.and_graphs.specs.Texts as texts;

use crate::aigs::{Aig, Latch};
use crate::graphs::AndLine;
use sdcv_base::{Seq, push_decimal};
use std::alloc::{AllocError, Global};

/// Numbers with a space between them, and a newline.
fn push_row(alloc: Global, text: &mut Vec<u8>, first: u64, more: &[u64]) -> Result<(), AllocError>
    ensures { OnOk result (text.new.items ≡ text.old.items ++ row first more.now) }
{
    push_decimal(alloc, text, first)?;
    for number in more {
        text.push(b' ')?;
        push_decimal(alloc, text, *number)?;
    }
    Ok(text.push(b'\n')?)
}

/// Twice a number: the literal of a variable.
fn twice(variable: u64) -> Result<u64, AllocError>
    ensures { IfOk result (λ l. l ≡ 2 * variable) }
{
    variable.checked_mul(2).ok_or(AllocError)
}

/// The sum of two counts.
fn plus(a: u64, b: u64) -> Result<u64, AllocError>
    ensures { IfOk result (λ sum. sum ≡ a + b) }
{
    a.checked_add(b).ok_or(AllocError)
}

fn push_header(alloc: Global, text: &mut Vec<u8>, aig: &Aig) -> Result<(), AllocError>
    ensures { OnOk result (text.new.items ≡ text.old.items ++ header aig.now) }
{
    let latches = aig.latches.len() as u64;
    let lines = aig.lines.len() as u64;
    let front = plus(aig.inputs, latches)?;
    let count = plus(front, lines)?;
    text.extend_from_slice(b"aag ")?;
    push_row(alloc, text, count, &[aig.inputs, latches, 0, lines, 1])
}

fn push_inputs(alloc: Global, text: &mut Vec<u8>, inputs: u64) -> Result<(), AllocError>
    ensures { OnOk result (text.new.items ≡ text.old.items ++ input_rows inputs) }
{
    for k in 0..inputs {
        push_row(alloc, text, twice(k + 1)?, &[])?;
    }
    Ok(())
}

/// The line of a latch.
fn push_latch(
    alloc: Global,
    text: &mut Vec<u8>,
    variable: u64,
    latch: Latch,
) -> Result<(), AllocError>
    ensures { OnOk result (text.new.items ≡ text.old.items ++ texts.latch_row variable latch) }
{
    let own = twice(variable)?;
    let reset = if latch.is_any { own } else { 0 };
    push_row(alloc, text, own, &[latch.next, reset])
}

/// The lines of latches, whose variables begin with this one.
fn push_latches(
    alloc: Global,
    text: &mut Vec<u8>,
    first: u64,
    latches: &Seq<Latch>,
) -> Result<(), AllocError>
    ensures { OnOk result (text.new.items ≡ text.old.items ++ rows_from texts.latch_row first latches.now) }
{
    for k in 0..latches.len() {
        let latch = latches.at(k);
        push_latch(alloc, text, plus(first, k as u64)?, latch)?;
    }
    Ok(())
}

/// The line of a conjunction.
fn push_line(
    alloc: Global,
    text: &mut Vec<u8>,
    variable: u64,
    line: AndLine,
) -> Result<(), AllocError>
    ensures { OnOk result (text.new.items ≡ text.old.items ++ texts.line_row variable line) }
{
    push_row(alloc, text, twice(variable)?, &[line.left, line.right])
}

/// The lines of conjunctions, whose variables begin with this one.
fn push_lines(
    alloc: Global,
    text: &mut Vec<u8>,
    first: u64,
    lines: &Seq<AndLine>,
) -> Result<(), AllocError>
    ensures { OnOk result (text.new.items ≡ text.old.items ++ rows_from texts.line_row first lines.now) }
{
    for k in 0..lines.len() {
        let line = lines.at(k);
        push_line(alloc, text, plus(first, k as u64)?, line)?;
    }
    Ok(())
}

/// The text of a graph with latches, in the ASCII format of AIGER 1.9: counts, inputs, latches, the bad literal, lines. It has no
/// symbols and no comment.
pub fn aiger_text(alloc: Global, aig: &Aig) -> Result<Vec<u8>, AllocError>
    ensures { IfOk result (λ text. text.items ≡ texts.aiger_text aig.now) }
{
    let mut text = Vec::new(alloc);
    push_header(alloc, &mut text, aig)?;
    push_inputs(alloc, &mut text, aig.inputs)?;
    let first_latch = plus(aig.inputs, 1)?;
    push_latches(alloc, &mut text, first_latch, &aig.latches)?;
    push_row(alloc, &mut text, aig.bad, &[])?;
    let first_line = plus(first_latch, aig.latches.len() as u64)?;
    push_lines(alloc, &mut text, first_line, &aig.lines)?;
    Ok(text)
}
