//! The exceptions of a design: one for each block, from its register a to its register b.
ghost use Rattle.std.specs.Prelude.{◌≡◌, ◌++◌, IfOk, OnOk};
ghost use Rattle.sdcv_gen.specs.Texts.{exception, exception_line, numbered, sdc_text};

use crate::blocks::Block;
use crate::templates::{push_line, suffix};
use std::alloc::{AllocError, Global};

const CLOCK: &[u8] = b"create_clock -name ck -period 10 [get_ports clk]\n";

fn exception(block: Block) -> &'static str
    ensures { result.now ≡ exception block }
{
    match block {
        Block::Tied | Block::Direct => "set_false_path -from [get_cells a#] -to [get_cells b#]",
        Block::Phases | Block::Ring =>
            "set_multicycle_path 2 -from [get_cells a#] -to [get_cells b#]",
    }
}

fn push_exception(
    alloc: Global,
    out: &mut Vec<u8>,
    number: usize,
    block: Block,
) -> Result<(), AllocError>
    ensures { OnOk result (out.new.items ≡ out.old.items ++ exception_line number block) }
{
    push_line(out, &suffix(alloc, number)?, exception(block))
}

fn push_exceptions(alloc: Global, out: &mut Vec<u8>, blocks: &[Block]) -> Result<(), AllocError>
    ensures { OnOk result (out.new.items ≡ out.old.items ++ numbered exception_line 0 blocks.now) }
{
    for k in 0..blocks.len() {
        push_exception(alloc, out, k, blocks[k])?;
    }
    Ok(())
}

/// The constraints of a design of these blocks.
pub(crate) fn sdc_text(alloc: Global, blocks: &[Block]) -> Result<Vec<u8>, AllocError>
    ensures { IfOk result (λ text. text.items ≡ sdc_text blocks.now) }
{
    let mut out = Vec::from_slice(alloc, CLOCK)?;
    push_exceptions(alloc, &mut out, blocks)?;
    Ok(out)
}
