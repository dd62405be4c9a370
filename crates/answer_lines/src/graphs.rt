//! The line of a graph that is saved.
ghost use Rattle.std.specs.Prelude.{◌≡◌, IfOk};
ghost use Rattle.answer_lines.specs.Graphs.{aiger_line};

use report_text::number_text;
use std::alloc::{AllocError, Global};

/// How many inputs, latches and conjunctions a graph has.
#[derive(Clone, Copy)]
pub struct GraphCounts {
    pub inputs: u64,
    pub latches: u64,
    pub gates: u64,
}

/// The line of the graph that watches the claim of the pair of that number, with how many nets of the design are free, where cells
/// may be cut out of it.
pub fn aiger_line(
    alloc: Global,
    number: u64,
    counts: GraphCounts,
    free: Option<u64>,
) -> Result<Vec<u8>, AllocError>
    ensures { IfOk result (λ line. line.items ≡ aiger_line number counts.inputs counts.latches counts.gates free) }
{
    let inputs = counts.inputs;
    let latches = counts.latches;
    let gates = counts.gates;
    let free = number_text(alloc, "free", free)?;
    let line = format!(in alloc;
        "aiger pair {number} inputs {inputs} latches {latches} gates {gates}{free}\n"
    )?;
    Ok(line.into_bytes())
}
