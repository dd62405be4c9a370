//! The flat netlist of a source.
ghost use Rattle.std.specs.Prelude.{◌≡◌, ◌<◌, length, IfOk, IfErr, OnOk};
ghost use Rattle.link_defs.specs.Flatten.{flat_of, numbers as spec_numbers};
ghost use Rattle.link_items.specs.Items.{module_at};
ghost use Rattle.link_circuit.specs.Flats.{IsFlattened, AreFine, IsCauseBelow, IsUnrecursive, IsStart};
ghost use Rattle.link_circuit.specs.Frames.{HasRanks};

use crate::frames::Frame;
use crate::orders::module_order;
use crate::steps::step;
use graph_order::Stack;
use link_items::{Instance, Made, Netlist};
use linked_types::LinkFault;
use sdcv_base::{Name, Seq};
use std::alloc::{AllocError, Global};

/// A flat netlist: its instances of modules, its nets, parts and leaves, and how many modules, cells and primitives stand in it.
#[derive(Drop)]
pub struct Flattened {
    pub scopes: Seq<Instance>,
    pub made: Made,
    pub instances: usize,
}

/// The flat netlist of a source below the module at a place.
pub fn flatten(alloc: Global, netlist: &Netlist, top: usize) -> Result<Flattened, LinkFault>
    requires top { top < length netlist.now.source.now.modules }
    ensures ok { IfOk result (IsFlattened netlist.now.source.now netlist.now.library.now
        (flat_of netlist.now.source.now netlist.now.library.now (module_at netlist.now.source.now top))) }
    ensures err { IfErr result (IsCauseBelow netlist.now.source.now netlist.now.library.now (module_at netlist.now.source.now top)) }
    ensures fine { OnOk result (AreFine netlist.now.source.now netlist.now.library.now
        (flat_of netlist.now.source.now netlist.now.library.now (module_at netlist.now.source.now top))) }
    ensures ordered { OnOk result (IsUnrecursive netlist.now.source.now) }
{
    let _order = module_order(alloc, netlist)?;
    walk(alloc, netlist, top)
}

/// Goes through all that stands below a module, depth first.
fn walk(alloc: Global, netlist: &Netlist, top: usize) -> Result<Flattened, LinkFault>
    requires top { top < length netlist.now.source.now.modules }
    requires ranks { HasRanks netlist.now.source.now }
    ensures ok { IfOk result (IsFlattened netlist.now.source.now netlist.now.library.now
        (flat_of netlist.now.source.now netlist.now.library.now (module_at netlist.now.source.now top))) }
    ensures err { IfErr result (IsCauseBelow netlist.now.source.now netlist.now.library.now (module_at netlist.now.source.now top)) }
    ensures fine { OnOk result (AreFine netlist.now.source.now netlist.now.library.now
        (flat_of netlist.now.source.now netlist.now.library.now (module_at netlist.now.source.now top))) }
{
    let mut flat = start(alloc, netlist, top)?;
    let mut stack = Stack::new(alloc);
    stack.push(Frame { scope: 0, next: 0 })?;
    while let Some(frame) = stack.pop() {
        step(alloc, netlist, &mut flat, &mut stack, frame)?;
    }
    Ok(flat)
}

/// So many numbers from 0 on.
fn numbers(alloc: Global, count: usize) -> Result<Seq<usize>, AllocError>
    ensures { IfOk result (λ list. list ≡ spec_numbers 0 count) }
{
    let mut list = Seq::new(alloc);
    for k in 0..count {
        list.push(k)?;
    }
    Ok(list)
}

/// The top module alone, none of whose items is there yet.
fn start(alloc: Global, netlist: &Netlist, top: usize) -> Result<Flattened, AllocError>
    requires { top < length netlist.now.source.now.modules }
    ensures { IfOk result (IsStart netlist.now.source.now top) }
{
    let count = netlist.source.modules.item(top).nets.len();
    let instance = Instance {
        prefix: Name::new(alloc, b"")?,
        body: top,
        nets: numbers(alloc, count)?,
        depth: 0,
    };
    Ok(Flattened {
        scopes: Seq::one(alloc, instance)?,
        made: Made {
            count,
            parts: Seq::new(alloc),
            leaves: Seq::new(alloc),
        },
        instances: 0,
    })
}
