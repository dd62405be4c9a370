//! How the moved nets of a layer move others.
ghost use Rattle.std.specs.Prelude.{◌<◌, ◌≤◌, length, OnOk};
ghost use Rattle.net_model.specs.Netlist.{AllBelow, IsSound};
ghost use Rattle.net_model.specs.Fits.{IsPinIn};
ghost use Rattle.net_paths.specs.Readers.{AreReaders};
ghost use Rattle.frame_unroll.specs.Moves.{Lists, PinMoves, NetMoves, IsSpread};

use indexmap::IndexSet;
use net_model::{Design, PinRef, PinSet, is_held};
use net_paths::Readers;
use sdcv_base::Seq;
use std::alloc::AllocError;

/// Lists the nets that those found move in a layer, those that these move, and so on. Each net is looked at once, in the
/// order in which they are found.
pub fn spread(
    design: &Design,
    readers: &Readers,
    sets: &Seq<PinSet>,
    layer: usize,
    found: &mut IndexSet<usize>,
) -> Result<(), AllocError>
    requires sound { IsSound design.now }
    requires readers { AreReaders design.now readers.now.rows.items }
    requires sets { layer ≤ length sets.now }
    requires below { AllBelow design.now.nets found.old.keys }
    ensures { OnOk result (IsSpread design.now sets.now layer found.old.keys found.new.keys) }
{
    let mut next = 0;
    while next < found.len() {
        let net = found.as_slice()[next];
        tell(design, readers, sets, layer, net, found)?;
        next += 1;
    }
    Ok(())
}

/// Lists the nets that a moved net moves in a layer.
fn tell(
    design: &Design,
    readers: &Readers,
    sets: &Seq<PinSet>,
    layer: usize,
    net: usize,
    found: &mut IndexSet<usize>,
) -> Result<(), AllocError>
    requires readers { AreReaders design.now readers.now.rows.items }
    requires sets { layer ≤ length sets.now }
    requires net { net < design.now.nets }
    ensures { OnOk result (Lists (NetMoves design.now sets.now layer net) found.old.keys found.new.keys) }
{
    for pin in readers.of_net(net) {
        pass(design, sets, layer, *pin, found)?;
    }
    Ok(())
}

/// Lists the net that a pin moves in a layer where it reads a moved net, if it moves one.
fn pass(
    design: &Design,
    sets: &Seq<PinSet>,
    layer: usize,
    pin: PinRef,
    found: &mut IndexSet<usize>,
) -> Result<(), AllocError>
    requires sets { layer ≤ length sets.now }
    requires pin { IsPinIn design.now pin }
    ensures { OnOk result (Lists (PinMoves design.now sets.now layer pin) found.old.keys found.new.keys) }
{
    if let PinRef::GateIn(gate, _) = pin {
        let out = design.gates.item(gate).out;
        if !is_held(sets, layer, pin) && !is_held(sets, layer, PinRef::Net(out)) {
            found.insert(out)?;
        }
    }
    Ok(())
}
