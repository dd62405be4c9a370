//! The clock gates of a circuit, by their nets.
ghost use Rattle.std.specs.Prelude.{◌≡◌, ◌<◌, ◌++◌, IfOk, OnOk, length, map};
ghost use Rattle.net_model.specs.Netlist.{AllBelow};
ghost use Rattle.net_link.specs.GateNets.{part_nets, all_nets, nets_at, outs_of};

use link_defs::{Circuit, Part};
use sdcv_base::Seq;
use std::alloc::{AllocError, Global};

/// The nets of a clock gate: that of its clock pin, those of its enables, and the net that it drives.
#[derive(Drop)]
pub(crate) struct GateNets {
    pub(crate) clock: usize,
    pub(crate) enables: Seq<usize>,
    pub(crate) out: usize,
}

/// Appends the nets of the clock gate that a part is, if it is one.
fn push_nets(alloc: Global, list: &mut Seq<GateNets>, part: &Part) -> Result<(), AllocError>
    ensures { OnOk result (list.new ≡ list.old ++ part_nets part.now) }
{
    match part {
        Part::Comb { .. } => Ok(()),
        Part::Flop { .. } => Ok(()),
        Part::Gate {
            clock,
            enables,
            out,
        } => {
            let enables = enables.copy(alloc)?;
            list.push(GateNets {
                clock: *clock,
                enables,
                out: *out,
            })?;
            Ok(())
        }
    }
}

/// The clock gates in the order of the parts.
pub(crate) fn all_nets(alloc: Global, circuit: &Circuit) -> Result<Seq<GateNets>, AllocError>
    ensures { IfOk result (λ gates. gates ≡ all_nets circuit.now) }
{
    let mut list = Seq::new(alloc);
    for part in circuit.parts.as_slice() {
        push_nets(alloc, &mut list, part)?;
    }
    Ok(list)
}

/// The clock gate at a place.
fn nets_at(gates: &Seq<GateNets>, place: usize) -> &GateNets
    requires { place < length gates.now }
    ensures { result.now ≡ nets_at gates.now place }
{
    gates.item(place)
}

/// An equal clock gate.
fn copy_nets(alloc: Global, gate: &GateNets) -> Result<GateNets, AllocError>
    ensures { IfOk result (λ copied. copied ≡ gate.now) }
{
    let enables = gate.enables.copy(alloc)?;
    Ok(GateNets {
        clock: gate.clock,
        enables,
        out: gate.out,
    })
}

/// Copies of the clock gates at these places.
pub(crate) fn in_order(
    alloc: Global,
    gates: &Seq<GateNets>,
    places: &Seq<usize>,
) -> Result<Seq<GateNets>, AllocError>
    requires { AllBelow (length gates.now) places.now }
    ensures { IfOk result (λ list. list ≡ map (nets_at gates.now) places.now) }
{
    let mut list = Seq::new(alloc);
    for place in places.as_slice() {
        list.push(copy_nets(alloc, nets_at(gates, *place))?)?;
    }
    Ok(list)
}

/// The nets that clock gates drive.
pub(crate) fn outs_of(alloc: Global, gates: &Seq<GateNets>) -> Result<Seq<usize>, AllocError>
    ensures { IfOk result (λ outs. outs ≡ outs_of gates.now) }
{
    let mut outs = Seq::new(alloc);
    for gate in gates.as_slice() {
        outs.push(gate.out)?;
    }
    Ok(outs)
}
