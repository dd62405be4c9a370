//! The nets that the clock comes to after an even number of inversions.
ghost use Rattle.std.specs.Prelude.{IfOk};
ghost use Rattle.link_defs.specs.Cuts.{IsEven};
ghost use Rattle.link_design.specs.Lawful.{IsLawfulCircuit};

use crate::marks::ClockMarks;
use crate::opens::next_open;
use link_defs::Circuit;
use sdcv_base::Seq;
use std::alloc::{AllocError, Global};

/// Marks of the nets that the clock comes to after an even number of inversions, found net by net until it comes to no other. A
/// net may have many drivers: where a second one is cut out, it is no fault.
pub(crate) fn even_row(alloc: Global, circuit: &Circuit) -> Result<Seq<bool>, AllocError>
    requires { IsLawfulCircuit circuit.now }
    ensures { IfOk result (IsEven circuit.now) }
{
    let mut marks = ClockMarks::none(alloc, circuit.nets)?;
    let mut from = 0;
    while let Some(next) = next_open(&marks, circuit, from) {
        marks.put(next.to);
        from = next.place;
    }
    Ok(marks.even)
}
