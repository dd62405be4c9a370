//! The blocks of a design: two registers a and b, and what stands between them.
ghost use Rattle.std.specs.Prelude.{◌≡◌, ◌++◌, OnOk};
ghost use Rattle.sdcv_gen.specs.declared.blocks.Block.TheVariants as block;
ghost use Rattle.sdcv_gen.specs.Texts.{block_text};

use crate::templates::push_line;
use std::alloc::AllocError;

/// What stands between the registers a and b of a block.
#[derive(Debug, Clone, Copy, PartialEq, Eq)]
pub enum Block {
    /// A gate with an input that is tied to 0, so that b never sees a.
    Tied,
    /// Nothing: b captures what a holds.
    Direct,
    /// A counter of two bits, in whose first phase a is loaded, and b two phases later.
    Phases,
    /// A ring of three registers in which a single 1 goes round: a is loaded by the first, b by the last.
    Ring,
}

fn push_tied(out: &mut Vec<u8>, suffix: &str) -> Result<(), AllocError>
    ensures { OnOk result (out.new.items ≡ out.old.items ++ block_text suffix.now block.Tied) }
{
    push_line(out, suffix, "  wire qa#, z#, n1#;")?;
    push_line(out, suffix, "  TIE0 t0# (.Y(z#));")?;
    push_line(
        out,
        suffix,
        "  DFFC a# (.D(d), .C(rst), .CK(clk), .Q(qa#));",
    )?;
    push_line(out, suffix, "  AND2 g1# (.A(qa#), .B(z#), .Y(n1#));")?;
    push_line(
        out,
        suffix,
        "  DFFC b# (.D(n1#), .C(rst), .CK(clk), .Q(y#));",
    )
}

fn push_direct(out: &mut Vec<u8>, suffix: &str) -> Result<(), AllocError>
    ensures { OnOk result (out.new.items ≡ out.old.items ++ block_text suffix.now block.Direct) }
{
    push_line(out, suffix, "  wire qa#;")?;
    push_line(
        out,
        suffix,
        "  DFFC a# (.D(d), .C(rst), .CK(clk), .Q(qa#));",
    )?;
    push_line(
        out,
        suffix,
        "  DFFC b# (.D(qa#), .C(rst), .CK(clk), .Q(y#));",
    )
}

fn push_phases(out: &mut Vec<u8>, suffix: &str) -> Result<(), AllocError>
    ensures { OnOk result (out.new.items ≡ out.old.items ++ block_text suffix.now block.Phases) }
{
    push_line(out, suffix, "  wire p0#, p1#, n0#, n1#, la#, lb#, qa#;")?;
    push_line(out, suffix, "  INV i0# (.A(p0#), .Y(n0#));")?;
    push_line(out, suffix, "  XOR2 x1# (.A(p1#), .B(p0#), .Y(n1#));")?;
    push_line(
        out,
        suffix,
        "  DFFC r0# (.D(n0#), .C(rst), .CK(clk), .Q(p0#));",
    )?;
    push_line(
        out,
        suffix,
        "  DFFC r1# (.D(n1#), .C(rst), .CK(clk), .Q(p1#));",
    )?;
    push_line(out, suffix, "  NOR2 ga# (.A(p0#), .B(p1#), .Y(la#));")?;
    push_line(out, suffix, "  AND2 gb# (.A(p1#), .B(n0#), .Y(lb#));")?;
    push_line(
        out,
        suffix,
        "  DFFE a# (.D(d), .E(la#), .CK(clk), .Q(qa#));",
    )?;
    push_line(
        out,
        suffix,
        "  DFFE b# (.D(qa#), .E(lb#), .CK(clk), .Q(y#));",
    )
}

fn push_ring(out: &mut Vec<u8>, suffix: &str) -> Result<(), AllocError>
    ensures { OnOk result (out.new.items ≡ out.old.items ++ block_text suffix.now block.Ring) }
{
    push_line(out, suffix, "  wire h0#, h1#, h2#, qa#;")?;
    push_line(
        out,
        suffix,
        "  DFFP p0# (.D(h2#), .P(rst), .CK(clk), .Q(h0#));",
    )?;
    push_line(
        out,
        suffix,
        "  DFFC p1# (.D(h0#), .C(rst), .CK(clk), .Q(h1#));",
    )?;
    push_line(
        out,
        suffix,
        "  DFFC p2# (.D(h1#), .C(rst), .CK(clk), .Q(h2#));",
    )?;
    push_line(
        out,
        suffix,
        "  DFFE a# (.D(d), .E(h0#), .CK(clk), .Q(qa#));",
    )?;
    push_line(
        out,
        suffix,
        "  DFFE b# (.D(qa#), .E(h2#), .CK(clk), .Q(y#));",
    )
}

/// Appends the lines of a block.
pub(crate) fn push_block(out: &mut Vec<u8>, suffix: &str, block: Block) -> Result<(), AllocError>
    ensures { OnOk result (out.new.items ≡ out.old.items ++ block_text suffix.now block) }
{
    match block {
        Block::Tied => push_tied(out, suffix),
        Block::Direct => push_direct(out, suffix),
        Block::Phases => push_phases(out, suffix),
        Block::Ring => push_ring(out, suffix),
    }
}
