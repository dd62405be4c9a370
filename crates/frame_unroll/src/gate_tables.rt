//! Which gate drives each net.
ghost use Rattle.std.specs.Prelude.{IfOk};
ghost use Rattle.net_model.specs.Netlist.{IsSound};
ghost use Rattle.frame_unroll.specs.Found.{AreNetGates};

use net_model::Design;
use sdcv_base::Seq;
use std::alloc::{AllocError, Global};

/// The number of the gate that drives each net, where one does.
pub fn net_gates(alloc: Global, design: &Design) -> Result<Seq<Option<usize>>, AllocError>
    requires { IsSound design.now }
    ensures { IfOk result (AreNetGates design.now) }
{
    let none: Option<usize> = None;
    let mut table = Seq::filled(alloc, none, design.nets)?;
    let count = design.gates.len();
    for i in 0..count {
        let gate = count - 1 - i;
        table.put(design.gates.item(gate).out, Some(gate));
    }
    Ok(table)
}
