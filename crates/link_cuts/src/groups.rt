//! Cut instances by the module that they are cut out of.
ghost use Rattle.std.specs.Prelude.{◌≡◌, ◌<◌, [], length, replicate, IfOk, OnOk};
ghost use Rattle.link_items.specs.Tables.{module_names};
ghost use Rattle.link_cuts.specs.Groups.{AreGroups, with_place};

use link_defs::CutItem;
use link_items::Netlist;
use sdcv_base::Seq;
use std::alloc::{AllocError, Global};

/// For each module of a source the places of the instances that are cut out of it.
pub(crate) fn groups_of(
    alloc: Global,
    netlist: &Netlist,
    items: &Seq<CutItem>,
) -> Result<Seq<Seq<usize>>, AllocError>
    ensures { IfOk result (AreGroups items.now (module_names netlist.now.source.now)) }
{
    let mut groups = no_places(alloc, netlist.modules.len())?;
    for place in 0..items.len() {
        let body = netlist.modules.place(&items.item(place).module);
        if body < groups.len() {
            push_place(&mut groups, body, place)?;
        }
    }
    Ok(Seq::from_vec(groups))
}

/// So many groups without a place.
fn no_places(alloc: Global, count: usize) -> Result<Vec<Seq<usize>>, AllocError>
    ensures { IfOk result (λ groups. groups.items ≡ replicate count []) }
{
    let mut groups = Vec::new(alloc);
    for _ in 0..count {
        groups.push(Seq::new(alloc))?;
    }
    Ok(groups)
}

/// Adds a place to a group.
fn push_place(groups: &mut Vec<Seq<usize>>, body: usize, place: usize) -> Result<(), AllocError>
    requires { body < length groups.old.items }
    ensures { OnOk result (groups.new.items ≡ with_place groups.old.items body place) }
{
    groups[body].push(place)?;
    Ok(())
}
