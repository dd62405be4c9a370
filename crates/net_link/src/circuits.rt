//! From a source to the design of its circuit.
ghost use Rattle.std.specs.Prelude.{◌≡◌, ◌<◌, List, length, IfOk, IfErr, OnOk};
ghost use Rattle.net_model.specs.Netlist.{IsSound};
ghost use Rattle.icg_rewrite.specs.Faults.{HasRoom};
ghost use Rattle.icg_rewrite.specs.Gated.{AreGated};
ghost use Rattle.icg_rewrite.specs.Rewritten.{rewritten};
ghost use Rattle.link_design.specs.Faults.{IsFaultless};
ghost use Rattle.link_design.specs.Made.{IsHeldBy, IsMade};
ghost use Rattle.link_defs.specs.declared.cuts.CutItem.{CutItem};
ghost use Rattle.link_defs.specs.Faults.{IsFlatCause};
ghost use Rattle.link_defs.specs.Flatten.{flat_of};
ghost use Rattle.link_defs.specs.Judged.{FlatNetlist};
ghost use Rattle.link_circuit.specs.Flats.{IsCauseBelow, IsUnrecursive};
ghost use Rattle.link_items.specs.Items.{module_at};
ghost use Rattle.net_link.specs.Left.{IsLeft};
ghost use Rattle.net_link.specs.Stages.{IsEnableCause, IsFlatCircuit};

use crate::designs::with_enables;
use crate::left::LeftCircuit;
use icg_rewrite::{Gated, RewriteFault};
use link_circuit::{FlatCircuit, circuit_of, flatten, named_fault};
use link_design::{CircuitDesign, Held, design_of};
use link_items::Netlist;
use link_tops::check_cells;
use linked_types::{LinkFault, LinkOptions};
use net_model::Design;
use sdcv_base::{LimitName, Name};
use std::alloc::Global;

/// The circuit below the module at a place, no two of whose cells have one name.
pub(crate) fn flat_circuit(
    alloc: Global,
    netlist: &Netlist,
    top: usize,
    clock: &Option<Name>,
) -> Result<FlatCircuit, LinkFault>
    requires top { top < length netlist.now.source.now.modules }
    ensures ok { IfOk result (IsFlatCircuit netlist.now.source.now netlist.now.library.now (module_at netlist.now.source.now top) clock.now) }
    ensures ordered { OnOk result (IsUnrecursive netlist.now.source.now) }
    ensures err { IfErr result (IsCauseBelow netlist.now.source.now netlist.now.library.now (module_at netlist.now.source.now top)) }
{
    let flat = flatten(alloc, netlist, top)?;
    check_cells(alloc, &flat.made.leaves)?;
    let circuit = circuit_of(alloc, netlist, top, clock, flat)?;
    Ok(circuit)
}

/// The design of what is left of the circuit below the module at a place.
pub(crate) fn made_design(
    alloc: Global,
    netlist: &Netlist,
    top: usize,
    options: &LinkOptions,
    left: &LeftCircuit,
    held: Held,
) -> Result<CircuitDesign, LinkFault>
    requires top { top < length netlist.now.source.now.modules }
    requires left { (items : List CutItem) × (j : FlatNetlist) × IsLeft (record { source = netlist.now.source.now; items = items })
        netlist.now.library.now (module_at netlist.now.source.now top) options.now j left.now }
    requires held { IsHeldBy (length left.now.flat.circuit.inputs) held }
    ensures ok { IfOk result (IsMade left.now.flat.circuit held) }
    ensures err { IfErr result (λ e. (items : List CutItem) (j : FlatNetlist) → IsLeft (record { source = netlist.now.source.now; items = items })
        netlist.now.library.now (module_at netlist.now.source.now top) options.now j left.now
        → IsFlatCause netlist.now.source.now netlist.now.library.now options.now (module_at netlist.now.source.now top)
        (flat_of netlist.now.source.now netlist.now.library.now (module_at netlist.now.source.now top)) j.found left.now.flat.circuit e) }
    ensures none { OnOk result (IsFaultless left.now.flat.circuit) }
{
    match design_of(alloc, &left.flat.circuit, held) {
        Ok(made) => Ok(made),
        Err(fault) => Err(named_fault(alloc, netlist, top, options, &left.flat, fault)?),
    }
}

/// The design with an enable for each clock gate.
pub(crate) fn enabled_design(alloc: Global, gated: Gated) -> Result<Design, LinkFault>
    requires { AreGated gated }
    ensures ok { IfOk result (λ design. design ≡ rewritten gated) }
    ensures sound { IfOk result IsSound }
    ensures err { IfErr result (IsEnableCause gated) }
    ensures none { OnOk result (HasRoom gated) }
{
    match with_enables(alloc, gated) {
        Ok(design) => Ok(design),
        Err(RewriteFault::Pins(_)) => Err(LinkFault::Limit(LimitName::Pins, 6)),
        Err(RewriteFault::Nets(_)) => Err(LinkFault::Limit(LimitName::Nets, 200_001)),
        Err(RewriteFault::Memory) => Err(LinkFault::Memory),
    }
}
