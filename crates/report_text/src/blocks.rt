//! The block of a stimulus.
ghost use Rattle.std.specs.Prelude.{◌≡◌, ◌++◌, map, IfOk, OnOk, string_bytes};
ghost use Rattle.witness_replay.specs.StimulusTexts.{digits_of, head_of, input_line, line_of, block_lines};

use crate::lines::ReportLines;
use net_model::Stimulus;
use sdcv_base::Seq;
use std::alloc::{AllocError, Global};

/// Bits as digits, or `-` where there are none.
pub fn bits_text(alloc: Global, bits: &Seq<bool>) -> Result<String, AllocError>
    ensures { IfOk result (λ text. string_bytes text ≡ digits_of bits.now) }
{
    if bits.len() == 0 {
        return String::from_str(alloc, "-");
    }
    let mut text = String::new(alloc);
    for bit in bits.as_slice() {
        text.push(if *bit { '1' } else { '0' })?;
    }
    Ok(text)
}

fn head_text(alloc: Global, number: u64, count: usize) -> Result<String, AllocError>
    ensures { IfOk result (λ text. string_bytes text ≡ head_of number count) }
{
    format!(in alloc; "stimulus {number} cycles {count}")
}

fn row_text(alloc: Global, word: &str, bits: &Seq<bool>) -> Result<String, AllocError>
    ensures { IfOk result (λ text. string_bytes text ≡ word.now ++ digits_of bits.now) }
{
    let bits = bits_text(alloc, bits)?;
    format!(in alloc; "{word}{bits}")
}

fn add_inputs(
    alloc: Global,
    inputs: &Seq<Seq<bool>>,
    report: &mut ReportLines,
) -> Result<(), AllocError>
    ensures { OnOk result (report.new ≡ report.old ++ map line_of (map input_line inputs.now)) }
{
    for bits in inputs.as_slice() {
        report.add(row_text(alloc, "input ", bits)?)?;
    }
    Ok(())
}

/// Adds the block of a stimulus.
pub(crate) fn add_block(
    alloc: Global,
    number: u64,
    stimulus: &Stimulus,
    report: &mut ReportLines,
) -> Result<(), AllocError>
    ensures { OnOk result (report.new ≡ report.old ++ map line_of (block_lines number stimulus.now)) }
{
    report.add(head_text(alloc, number, stimulus.inputs.len())?)?;
    report.add(row_text(alloc, "state ", &stimulus.state)?)?;
    add_inputs(alloc, &stimulus.inputs, report)?;
    report.add(String::from_str(alloc, "end")?)
}
