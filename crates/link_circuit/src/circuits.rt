//! The circuit of a flat netlist.
ghost use Rattle.std.specs.Prelude.{◌≡◌, ◌<◌, length, IfOk};
ghost use Rattle.link_defs.specs.Circuits.{circuit_of as spec_circuit};
ghost use Rattle.link_defs.specs.Flatten.{flat_of};
ghost use Rattle.link_items.specs.Items.{module_at};
ghost use Rattle.link_circuit.specs.Flats.{IsFlattened};

use crate::flats::Flattened;
use crate::ports::port_nets;
use link_defs::Circuit;
use link_items::{Instance, LeafPlace, Made, Netlist};
use sdcv_base::{Name, Seq};
use std::alloc::{AllocError, Global};

/// A circuit, and by name the instances whose nets it has and the leaves whose parts it has.
#[derive(Drop)]
pub struct FlatCircuit {
    pub circuit: Circuit,
    pub scopes: Seq<Instance>,
    pub leaves: Seq<LeafPlace>,
}

/// The circuit of a flat netlist below the module at a place; its parts are not copied.
pub fn circuit_of(
    alloc: Global,
    netlist: &Netlist,
    top: usize,
    clock: &Option<Name>,
    flat: Flattened,
) -> Result<FlatCircuit, AllocError>
    requires top { top < length netlist.now.source.now.modules }
    requires flat { IsFlattened netlist.now.source.now netlist.now.library.now
        (flat_of netlist.now.source.now netlist.now.library.now (module_at netlist.now.source.now top)) flat }
    ensures circuit { IfOk result (λ c. c.circuit
        ≡ spec_circuit netlist.now.source.now netlist.now.library.now (module_at netlist.now.source.now top) clock.now) }
    ensures scopes { IfOk result (λ c. c.scopes ≡ flat.scopes) }
    ensures leaves { IfOk result (λ c. c.leaves ≡ flat.made.leaves) }
{
    let ports = port_nets(alloc, netlist.source.modules.item(top), clock)?;
    let Flattened { scopes, made, .. } = flat;
    let Made {
        count,
        parts,
        leaves,
    } = made;
    let circuit = Circuit {
        nets: count,
        clocks: ports.clocks,
        inputs: ports.inputs,
        outputs: ports.outputs,
        parts,
    };
    Ok(FlatCircuit {
        circuit,
        scopes,
        leaves,
    })
}
