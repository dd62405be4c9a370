//! The top module.
ghost use Rattle.std.specs.Prelude.{Some, IfOk, IfErr};
ghost use Rattle.cut_source.specs.Sources.{IsTopAt, IsCutCause};

use link_items::{Netlist, Referent};
use link_tops::one_top;
use linked_types::LinkFault;
use sdcv_base::Name;
use std::alloc::Global;

/// The place of the module of that name.
fn named_top(alloc: Global, netlist: &Netlist, name: &Name) -> Result<usize, LinkFault>
    ensures ok { IfOk result (IsTopAt netlist.now.source.now (Some name.now)) }
    ensures err { IfErr result (IsCutCause netlist.now.source.now (Some name.now)) }
{
    match netlist.referent(name) {
        Referent::Module(place) => Ok(place),
        Referent::Cell(_) => Err(LinkFault::BadSetting(name.copy(alloc)?)),
        Referent::Unknown => Err(LinkFault::BadSetting(name.copy(alloc)?)),
    }
}

/// The place of the top module: that of the name, where one is given.
pub(crate) fn top_place(
    alloc: Global,
    netlist: &Netlist,
    top: &Option<Name>,
) -> Result<usize, LinkFault>
    ensures ok { IfOk result (IsTopAt netlist.now.source.now top.now) }
    ensures err { IfErr result (IsCutCause netlist.now.source.now top.now) }
{
    match top {
        Some(name) => named_top(alloc, netlist, name),
        None => one_top(alloc, netlist.source),
    }
}
