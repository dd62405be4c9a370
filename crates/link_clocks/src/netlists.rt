//! What is left of a flat netlist on the clock that is judged.
ghost use Rattle.std.specs.Prelude.{◌≡◌, map, IfOk};
ghost use Rattle.link_defs.specs.Judged.{FlatNetlist, on_clock};
ghost use Rattle.link_design.specs.Lawful.{IsLawfulCircuit};
ghost use Rattle.link_clocks.specs.Netlists.{IsNetlist, IsJudgedOf, AreCellsBelow};

use crate::evens::even_row;
use crate::offs::{left_leaves, left_parts, push_off};
use cell_types::Library;
use link_defs::{Circuit, CutCell};
use link_items::LeafPlace;
use sdcv_base::Seq;
use std::alloc::{AllocError, Global};

/// A circuit with its leaves by name, and the cells that are cut out of it.
#[derive(Drop)]
pub struct CutNetlist {
    pub circuit: Circuit,
    pub leaves: Seq<LeafPlace>,
    pub cells: Seq<CutCell>,
}

/// Cuts out the registers and clock gates that the clock doesn't come to: nothing is left of their parts, they are no leaves, and they
/// are cells that are cut out, after those that are so already. The parts are changed in place. A net may have many drivers.
pub fn off_clock(
    alloc: Global,
    library: &Library,
    netlist: CutNetlist,
) -> Result<CutNetlist, AllocError>
    requires lawful { IsLawfulCircuit netlist.circuit }
    requires leaves { (n : FlatNetlist) × IsNetlist library.now netlist n }
    requires nets { AreCellsBelow netlist.circuit.nets netlist.cells }
    ensures judged { IfOk result (λ k. (n : FlatNetlist) → IsNetlist library.now netlist n → IsJudgedOf library.now n k) }
    ensures lawful { IfOk result (λ k. IsLawfulCircuit k.circuit) }
    ensures nets { IfOk result (λ k. AreCellsBelow k.circuit.nets k.cells) }
{
    let CutNetlist {
        circuit,
        leaves,
        mut cells,
    } = netlist;
    let even = even_row(alloc, &circuit)?;
    push_off(alloc, library, &even, &circuit.parts, &leaves, &mut cells)?;
    let leaves = left_leaves(&even, &circuit.parts, leaves);
    let circuit = left_circuit(alloc, &even, circuit);
    Ok(CutNetlist {
        circuit,
        leaves,
        cells,
    })
}

/// What is left of a circuit on the clock.
fn left_circuit(alloc: Global, even: &Seq<bool>, circuit: Circuit) -> Circuit
    ensures { result ≡ record circuit { parts = map (on_clock even.now) circuit.parts } }
{
    let Circuit {
        nets,
        clocks,
        inputs,
        outputs,
        parts,
    } = circuit;
    Circuit {
        nets,
        clocks,
        inputs,
        outputs,
        parts: left_parts(alloc, even, parts),
    }
}
