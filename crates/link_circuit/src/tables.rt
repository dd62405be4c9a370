//! The nets of full names.
ghost use Rattle.std.specs.Prelude.{◌≡◌, length, IfErr, OnOk};
ghost use Rattle.link_circuit.specs.Tables.{IsAdded, IsOther};

use crate::faults::NameFault;
use linked_types::NetName;
use sdcv_base::Seq;
use std::alloc::Global;
use texts::NameTable;

/// Names that differ, and at the same places their nets.
#[derive(Drop)]
pub struct NetTable {
    pub names: NameTable,
    pub nets: Seq<usize>,
}

/// Adds a name with its net, where it isn't there with it. A name may come again with the same net.
pub(crate) fn add_name(
    alloc: Global,
    names: &mut NameTable,
    nets: &mut Seq<usize>,
    one: &NetName,
) -> Result<(), NameFault>
    requires { length nets.old ≡ length names.old }
    ensures ok { OnOk result (IsAdded one.now names.old nets.old names.new nets.new) }
    ensures err { IfErr result (IsOther one.now names.old nets.old) }
{
    let place = names.place(&one.name);
    if place < nets.len() {
        if nets.at(place) == one.net {
            return Ok(());
        }
        return Err(NameFault::Clash(one.name.copy(alloc)?));
    }
    names.add(alloc, &one.name)?;
    nets.push(one.net)?;
    Ok(())
}
