//! Texts of graphs, beside what the format says.
use and_graphs::{Aig, AndLine, Latch, aiger_text};
use sdcv_base::Seq;
use std::alloc::AllocError;

// An input, a latch with any first bit, and the conjunction of their complements, which is bad and comes next.
const HELD: &[u8] = b"aag 3 1 1 0 1 1\n2\n4 6 4\n6\n6 5 3\n";

#[test]
fn a_graph_is_written_line_by_line(rt: HostRuntime) -> Result<(), AllocError> {
    let alloc = rt.alloc();
    let next = 6;
    let is_any = true;
    let aig = Aig {
        inputs: 1,
        latches: Seq::one(alloc, Latch { next, is_any })?,
        bad: next,
        lines: Seq::one(alloc, AndLine { left: 5, right: 3 })?,
    };
    let text = aiger_text(alloc, &aig)?;
    assert_eq!(rt; text.as_slice(), HELD);
    Ok(())
}
