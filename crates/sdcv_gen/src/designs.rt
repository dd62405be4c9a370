//! The call that makes the texts of a design.
ghost use Rattle.std.specs.Prelude.{◌≡◌, ◌++◌, IfOk, OnOk};
ghost use Rattle.sdcv_gen.specs.Draws.{drawn};
ghost use Rattle.sdcv_gen.specs.Texts.{numbered, output_text, numbered_block, verilog_text, sdc_text};

use crate::blocks::{Block, push_block};
use crate::constraints::sdc_text;
use crate::draws::drawn;
use crate::templates::{push_filled, suffix};
use std::alloc::{AllocError, Global};

/// The texts of a netlist and of its constraints.
#[derive(Drop)]
pub struct Generated {
    pub verilog: Vec<u8>,
    pub sdc: Vec<u8>,
}

fn push_output(alloc: Global, out: &mut Vec<u8>, number: usize) -> Result<(), AllocError>
    ensures { OnOk result (out.new.items ≡ out.old.items ++ output_text number) }
{
    push_filled(out, &suffix(alloc, number)?, ", output y#")
}

fn push_outputs(alloc: Global, out: &mut Vec<u8>, blocks: &[Block]) -> Result<(), AllocError>
    ensures { OnOk result (out.new.items ≡ out.old.items ++ numbered (λ number block. output_text number) 0 blocks.now) }
{
    for k in 0..blocks.len() {
        push_output(alloc, out, k)?;
    }
    Ok(())
}

fn push_numbered(
    alloc: Global,
    out: &mut Vec<u8>,
    number: usize,
    block: Block,
) -> Result<(), AllocError>
    ensures { OnOk result (out.new.items ≡ out.old.items ++ numbered_block number block) }
{
    push_block(out, &suffix(alloc, number)?, block)
}

fn push_blocks(alloc: Global, out: &mut Vec<u8>, blocks: &[Block]) -> Result<(), AllocError>
    ensures { OnOk result (out.new.items ≡ out.old.items ++ numbered numbered_block 0 blocks.now) }
{
    for k in 0..blocks.len() {
        push_numbered(alloc, out, k, blocks[k])?;
    }
    Ok(())
}

fn verilog_text(alloc: Global, blocks: &[Block]) -> Result<Vec<u8>, AllocError>
    ensures { IfOk result (λ text. text.items ≡ verilog_text blocks.now) }
{
    let mut out = Vec::from_slice(alloc, b"module top (input clk, input rst, input d")?;
    push_outputs(alloc, &mut out, blocks)?;
    out.extend_from_slice(b");\n")?;
    push_blocks(alloc, &mut out, blocks)?;
    out.extend_from_slice(b"endmodule\n")?;
    Ok(out)
}

/// The design of a seed, of so many blocks, and its constraints. Each block has its own output, and all share one data input.
pub fn generate(alloc: Global, seed: u64, size: usize) -> Result<Generated, AllocError>
    ensures verilog { IfOk result (λ g. g.verilog.items ≡ verilog_text (drawn seed size)) }
    ensures sdc { IfOk result (λ g. g.sdc.items ≡ sdc_text (drawn seed size)) }
{
    let blocks = drawn(alloc, seed, size)?;
    let verilog = verilog_text(alloc, &blocks)?;
    let sdc = sdc_text(alloc, &blocks)?;
    Ok(Generated { verilog, sdc })
}
