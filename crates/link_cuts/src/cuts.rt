//! The circuit that is left where cells are cut out.
ghost use Rattle.std.specs.Prelude.{◌≡◌, ◌≤◌, ◌==◌, ◌++◌, ℕ, count_by, IfOk, OnOk};
ghost use Rattle.link_defs.specs.Circuits.{all_drivers as spec_drivers, all_reads as spec_reads};
ghost use Rattle.link_defs.specs.Cuts.{cut_circuit};
ghost use Rattle.link_design.specs.Lawful.{IsLawfulCircuit};
ghost use Rattle.link_design.specs.Trees.{tree_of};
ghost use Rattle.link_clocks.specs.Netlists.{AreCellsBelow};
ghost use Rattle.link_cuts.specs.Cutting.{IsCutOut, IsRowOf, with_nets};

use crate::frees::{NetMarks, free_places};
use crate::marks::row_of;
use crate::places::{nets_of, pin_places};
use crate::remains::Cut;
use crate::rows::{CutPins, CutRows};
use crate::sinks::{clocked_row, sink_places};
use link_defs::{Circuit, CutCell};
use link_design::{all_drivers, all_reads, clock_rows};
use sdcv_base::Seq;
use std::alloc::{AllocError, Global};

/// Cuts cells out of a circuit: the free nets become data inputs after its own, and the sinks outputs after its own. Its parts are
/// not copied.
pub fn cut(alloc: Global, circuit: Circuit, cells: &Seq<CutCell>) -> Result<Cut, AllocError>
    requires lawful { IsLawfulCircuit circuit }
    requires once { (net : ℕ) → count_by (λ m. m == net) (spec_drivers circuit) ≤ 1 }
    requires nets { AreCellsBelow circuit.nets cells.now }
    ensures circuit { IfOk result (λ k. k.circuit ≡ cut_circuit circuit (tree_of k.pins.rows.tree) cells.now) }
    ensures pins { IfOk result (λ k. IsCutOut circuit cells.now k.pins) }
    ensures lawful { IfOk result (λ k. IsLawfulCircuit k.circuit) }
{
    let pins = cut_pins(alloc, &circuit, cells)?;
    let free = nets_of(alloc, cells, &pins.free)?;
    let sinks = nets_of(alloc, cells, &pins.sinks)?;
    let circuit = with_nets(circuit, &free, &sinks)?;
    Ok(Cut { circuit, pins })
}

/// The pins by which cells drive free nets and read what a circuit drives.
fn cut_pins(alloc: Global, circuit: &Circuit, cells: &Seq<CutCell>) -> Result<CutPins, AllocError>
    requires lawful { IsLawfulCircuit circuit.now }
    requires once { (net : ℕ) → count_by (λ m. m == net) (spec_drivers circuit.now) ≤ 1 }
    requires nets { AreCellsBelow circuit.now.nets cells.now }
    ensures { IfOk result (IsCutOut circuit.now cells.now) }
{
    let places = pin_places(alloc, cells)?;
    let marks = net_marks(alloc, circuit)?;
    let free = free_places(alloc, cells, &places, &marks)?;
    let free_nets = nets_of(alloc, cells, &free)?;
    let tree = clock_rows(alloc, circuit)?;
    let clocked = clocked_row(alloc, cells, &tree)?;
    let rows = CutRows {
        tree,
        driven: marks.driven,
        free: row_of(alloc, &free_nets, circuit.nets)?,
        clocked,
    };
    let sinks = sink_places(alloc, cells, &places, &rows)?;
    Ok(CutPins {
        rows,
        free,
        sinks,
        inputs: circuit.inputs.len(),
        outputs: circuit.outputs.len(),
    })
}

/// Marks of the nets that something drives, and of those that something reads.
fn net_marks(alloc: Global, circuit: &Circuit) -> Result<NetMarks, AllocError>
    requires { IsLawfulCircuit circuit.now }
    ensures driven { IfOk result (λ m. IsRowOf circuit.now.nets (spec_drivers circuit.now) m.driven) }
    ensures read { IfOk result (λ m. IsRowOf circuit.now.nets (spec_reads circuit.now) m.read) }
{
    let drivers = all_drivers(alloc, circuit)?;
    let reads = all_reads(alloc, circuit)?;
    Ok(NetMarks {
        driven: row_of(alloc, &drivers, circuit.nets)?,
        read: row_of(alloc, &reads, circuit.nets)?,
    })
}

/// Appends nets.
fn push_all(nets: &mut Seq<usize>, more: &[usize]) -> Result<(), AllocError>
    ensures { OnOk result (nets.new ≡ nets.old ++ more.now) }
{
    for net in more {
        nets.push(*net)?;
    }
    Ok(())
}

/// A circuit with further data inputs and outputs after its own.
fn with_nets(
    circuit: Circuit,
    more_inputs: &Seq<usize>,
    more_outputs: &Seq<usize>,
) -> Result<Circuit, AllocError>
    ensures { IfOk result (λ k. k ≡ with_nets circuit more_inputs.now more_outputs.now) }
{
    let Circuit {
        nets,
        clocks,
        mut inputs,
        mut outputs,
        parts,
    } = circuit;
    push_all(&mut inputs, more_inputs.as_slice())?;
    push_all(&mut outputs, more_outputs.as_slice())?;
    Ok(Circuit {
        nets,
        clocks,
        inputs,
        outputs,
        parts,
    })
}
