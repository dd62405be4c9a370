//! Names that are added one by one, each where it is new.
ghost use Rattle.std.specs.Prelude.{◌≡◌, ◌++◌, ◌∷◌, [], true, false, IfErr, OnOk};
ghost use Rattle.std.specs.List.{IsDistinct};
ghost use Rattle.std.specs.Str.{bytes_eq};
ghost use Rattle.texts.specs.Names.{is_among, are_distinct};
ghost use Rattle.link_tops.specs.Clashes.{port_names, leaf_names, cut_names, IsApart, IsClash};

use link_defs::CutCell;
use link_items::LeafPlace;
use linked_types::{LinkFault, PortName};
use sdcv_base::{Name, Seq};
use std::alloc::Global;
use texts::NameTable;

/// Adds a name, or refuses one that is there.
fn add_new(alloc: Global, names: &mut NameTable, name: &Name) -> Result<(), LinkFault>
    ensures fresh { OnOk result (is_among name.now names.old ≡ false) }
    ensures ok { OnOk result (names.new ≡ names.old ++ name.now ∷ []) }
    ensures err { IfErr result (IsClash (names.old ++ name.now ∷ [])) }
{
    if names.add(alloc, name)? {
        return Ok(());
    }
    Err(LinkFault::NameClash(name.copy(alloc)?))
}

/// Adds the names of port bits, or refuses one that is there.
pub fn add_ports(
    alloc: Global,
    names: &mut NameTable,
    ports: &Seq<PortName>,
) -> Result<(), LinkFault>
    ensures ok { OnOk result (names.new ≡ names.old ++ port_names ports.now) }
    ensures distinct { OnOk result (are_distinct names.old ≡ true → are_distinct names.new ≡ true) }
    ensures err { IfErr result (IsClash (names.old ++ port_names ports.now)) }
{
    for k in 0..ports.len() {
        add_new(alloc, names, &ports.item(k).name)?;
    }
    Ok(())
}

/// Adds the names of leaves, or refuses one that is there.
fn add_leaves(
    alloc: Global,
    names: &mut NameTable,
    leaves: &Seq<LeafPlace>,
) -> Result<(), LinkFault>
    ensures ok { OnOk result (names.new ≡ names.old ++ leaf_names leaves.now) }
    ensures distinct { OnOk result (are_distinct names.old ≡ true → are_distinct names.new ≡ true) }
    ensures err { IfErr result (IsClash (names.old ++ leaf_names leaves.now)) }
{
    for k in 0..leaves.len() {
        add_new(alloc, names, &leaves.item(k).name)?;
    }
    Ok(())
}

/// Refuses a name that two leaves have.
pub fn check_cells(alloc: Global, leaves: &Seq<LeafPlace>) -> Result<(), LinkFault>
    ensures differ { OnOk result (IsDistinct bytes_eq (leaf_names leaves.now)) }
    ensures none { OnOk result (IsApart (leaf_names leaves.now)) }
    ensures err { IfErr result (IsClash (leaf_names leaves.now)) }
{
    let mut names = NameTable::new(alloc);
    add_leaves(alloc, &mut names, leaves)?;
    Ok(())
}

/// Adds the names of cells that are cut out, or refuses one that is there.
fn add_cut_cells(
    alloc: Global,
    names: &mut NameTable,
    cells: &Seq<CutCell>,
) -> Result<(), LinkFault>
    ensures ok { OnOk result (names.new ≡ names.old ++ cut_names cells.now) }
    ensures distinct { OnOk result (are_distinct names.old ≡ true → are_distinct names.new ≡ true) }
    ensures err { IfErr result (IsClash (names.old ++ cut_names cells.now)) }
{
    for k in 0..cells.len() {
        add_new(alloc, names, &cells.item(k).name)?;
    }
    Ok(())
}

/// Refuses a name that two cells have, leaves or cells that are cut out.
pub fn check_names(
    alloc: Global,
    leaves: &Seq<LeafPlace>,
    cells: &Seq<CutCell>,
) -> Result<(), LinkFault>
    ensures differ { OnOk result (IsDistinct bytes_eq (leaf_names leaves.now ++ cut_names cells.now)) }
    ensures none { OnOk result (IsApart (leaf_names leaves.now ++ cut_names cells.now)) }
    ensures err { IfErr result (IsClash (leaf_names leaves.now ++ cut_names cells.now)) }
{
    let mut names = NameTable::new(alloc);
    add_leaves(alloc, &mut names, leaves)?;
    add_cut_cells(alloc, &mut names, cells)?;
    Ok(())
}
