//! All lines of a run that tells the multicycle pairs of a design.
ghost use Rattle.std.specs.Prelude.{◌≡◌, IfOk, string_bytes};
ghost use Rattle.answer_lines.specs.Texts.{bytes_of_lines};
ghost use Rattle.found_pairs.specs.Tellings.{detected_lines, header_line, header_text};

use crate::told_pairs::add_pairs;
use crate::totals::total_line;
use mcp_detect::{DetectOptions, Detected};
use report_text::{add_notices, mode_text, number_text};
use selected_types::Notices;
use std::alloc::{AllocError, Global};

fn header_text(
    alloc: Global,
    options: &DetectOptions,
    reset_len: usize,
) -> Result<String, AllocError>
    ensures { IfOk result (λ text. string_bytes text ≡ header_text options.now reset_len) }
{
    let mode = mode_text(options.hazard);
    let depth = options.depth;
    let budget = options.budget;
    let inv = options.inv_depth;
    let bound = options.bound;
    format!(in alloc;
        "sdcv 1 detect mode {mode} reset {reset_len} depth {depth} budget {budget} inv {inv} bound {bound}"
    )
}

fn header_line(
    alloc: Global,
    options: &DetectOptions,
    reset_len: usize,
    free: Option<u64>,
) -> Result<Vec<u8>, AllocError>
    ensures { IfOk result (λ line. line.items ≡ header_line options.now reset_len free) }
{
    let text = header_text(alloc, options, reset_len)?;
    let free = number_text(alloc, "free", free)?;
    Ok(format!(in alloc; "{text}{free}\n")?.into_bytes())
}

/// The lines of what is found, each with its newline: how the pairs were tried, with the cycles of reset, and with how many nets are
/// free, where cells may be cut out; what is told of the netlist and of the constraints; each pair with a multiplier; and how many
/// there are.
pub fn detected_lines(
    alloc: Global,
    options: &DetectOptions,
    reset_len: usize,
    free: Option<u64>,
    notices: &Notices,
    detected: &Detected,
) -> Result<Vec<Vec<u8>>, AllocError>
    ensures { IfOk result (λ lines. bytes_of_lines lines.items ≡ detected_lines options.now reset_len free notices.now detected.now) }
{
    let tried = detected.tried.as_slice();
    let mut lines = Vec::new(alloc);
    lines.push(header_line(alloc, options, reset_len, free)?)?;
    add_notices(alloc, notices, &mut lines)?;
    add_pairs(alloc, tried, &mut lines)?;
    lines.push(total_line(alloc, tried)?)?;
    Ok(lines)
}
