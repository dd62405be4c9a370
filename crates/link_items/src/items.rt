//! One item of an instance.
ghost use Rattle.std.specs.Prelude.{◌≡◌, ◌≤◌, ◌<◌, ◌+◌, All, length, IfOk, IfErr, OnOk, None, true, false};
ghost use Rattle.std.specs.List.{IsDistinct};
ghost use Rattle.std.specs.Str.{bytes_eq};
ghost use Rattle.net_model.specs.Netlist.{AllBelow};
ghost use Rattle.netlist_types.specs.declared.sources.Port.{Port as PortRecord};
ghost use Rattle.netlist_types.specs.declared.sources.Conn.{Conn as ConnRecord};
ghost use Rattle.netlist_types.specs.Lawful.{IsLawfulItem, IsBelow, IsWireBelow, AreWiresBelow, HasWidths, HasTerminals};
ghost use Rattle.cell_types.specs.Libraries.{IsLawfulCell};
ghost use Rattle.linked_types.specs.declared.faults.LinkFault.TheVariants as fault;
ghost use Rattle.link_defs.specs.Flatten.{other_pins as other};
ghost use Rattle.link_defs.specs.Hierarchy as hierarchy;
ghost use Rattle.link_defs.specs.Hierarchy.{wires_of};
ghost use Rattle.link_items.specs.declared.netlists.Referent.TheVariants as to;
ghost use Rattle.link_items.specs.Faults.{IsItemFault, IsModuleFault, IsCellFault, IsPrimFault, IsFaultless, IsCauseWithin};
ghost use Rattle.link_items.specs.Fine.{IsFineCell};
ghost use Rattle.link_items.specs.Pins.{pin_names};
ghost use Rattle.link_items.specs.Items.{scope_of, IsAdded, IsInner};
ghost use Rattle.link_items.specs.Steps.{inst_item, kind_pins, IsModuleAdded, IsCellAdded, HasLeaf, HasPrimLeaf, IsPrimAdded, IsCopyAdded};
ghost use Rattle.link_items.specs.Tables.{IsReferent};

use crate::cell_checks::check_cell;
use crate::cells::push_cell;
use crate::conn_tables::ConnTable;
use crate::joins::{inner_nets, push_port_ties};
use crate::made::{Instance, LeafPlace, Made};
use crate::module_checks::check_module;
use crate::names::{full_name, inner_prefix};
use crate::netlists::{Netlist, Referent};
use crate::prims::{Terminals, push_copy, push_prim};
use cell_types::{Cell, CellKind};
use linked_types::LinkFault;
use net_model::MOST_PINS;
use netlist_types::{Conn, Item, Module, PrimKind, Wire};
use sdcv_base::{LimitName, Name, Seq};
use std::alloc::{AllocError, Global};

/// The sum of two counts. More nets or levels than a number counts are more than any memory holds.
fn sum(a: usize, b: usize) -> Result<usize, LinkFault>
    ensures ok { IfOk result (λ n. n ≡ a + b) }
    ensures err { IfErr result (λ e. e ≡ fault.Memory) }
{
    match a.checked_add(b) {
        Some(n) => Ok(n),
        None => Err(LinkFault::Memory),
    }
}

/// How many pins a cell has beside its inputs.
fn other_pins(kind: &CellKind) -> Result<usize, LinkFault>
    ensures ok { IfOk result (λ n. n ≡ kind_pins kind.now) }
    ensures err { IfErr result (λ e. e ≡ fault.Memory) }
{
    match kind {
        CellKind::Comb(outs) => Ok(outs.len()),
        CellKind::Flop(flop) => sum(flop.outs.len(), 1),
        CellKind::Gate(_) => Ok(2),
        CellKind::Other(_) => Ok(0),
    }
}

/// How many pins a cell has.
fn pin_count(cell: &Cell) -> Result<usize, LinkFault>
    ensures ok { IfOk result (λ n. n ≡ length cell.now.inputs + other cell.now) }
    ensures err { IfErr result (λ e. e ≡ fault.Memory) }
{
    let others = other_pins(&cell.kind)?;
    sum(cell.inputs.len(), others)
}

/// Whether a cell is modelled.
fn is_modelled(kind: &CellKind) -> bool
    ensures { result ≡ hierarchy.is_modelled kind.now }
{
    match kind {
        CellKind::Comb(_) => true,
        CellKind::Flop(_) => true,
        CellKind::Gate(_) => true,
        CellKind::Other(_) => false,
    }
}

/// Adds the nets and constants of an instance of a module, and gives the flat nets of what stands in it.
fn add_module(
    alloc: Global,
    outer: &Seq<usize>,
    full: &Name,
    conns: &[Conn],
    body: &Module,
    made: &mut Made,
) -> Result<Seq<usize>, LinkFault>
    requires below { All (λ (c : ConnRecord). AreWiresBelow (length outer.now) c.wires) conns.now }
    requires bits { All (λ (p : PortRecord). AllBelow (length body.now.nets) p.bits) body.now.ports }
    requires widths { All (λ (p : PortRecord). length (wires_of conns.now p.name) ≤ length p.bits) body.now.ports }
    requires apart { IsDistinct bytes_eq (pin_names conns.now) }
    ensures ok { IfOk result (IsModuleAdded outer.now conns.now body.now made.old made.new) }
    ensures err { IfErr result (IsModuleFault body.now full.now conns.now) }
{
    let conns = ConnTable::of(alloc, conns)?;
    check_module(alloc, full, &conns, body)?;
    let first = made.count;
    let count = sum(first, body.nets.len())?;
    let nets = inner_nets(alloc, outer, body, &conns, first)?;
    push_port_ties(alloc, &mut made.parts, body, &conns, first)?;
    made.count = count;
    Ok(nets)
}

/// Adds the nets and the parts of an instance of a cell.
fn add_cell(
    alloc: Global,
    outer: &Seq<usize>,
    full: &Name,
    conns: &[Conn],
    cell: &Cell,
    made: &mut Made,
) -> Result<(), LinkFault>
    requires below { All (λ (c : ConnRecord). AreWiresBelow (length outer.now) c.wires) conns.now }
    requires narrow { HasWidths None conns.now }
    requires lawful { IsLawfulCell cell.now }
    ensures ok { OnOk result (IsCellAdded outer.now conns.now cell.now made.old made.new) }
    ensures err { IfErr result (IsCellFault cell.now full.now conns.now) }
{
    if !is_modelled(&cell.kind) {
        return Err(LinkFault::UnsupportedCell(cell.name.copy(alloc)?));
    }
    check_modelled(alloc, full, conns, cell)?;
    let first = made.count;
    let count = sum(first, pin_count(cell)?)?;
    push_cell(alloc, outer, conns, first, cell, &mut made.parts)?;
    made.count = count;
    Ok(())
}

/// Refuses an instance of a cell that is modelled for its pins.
fn check_modelled(alloc: Global, full: &Name, conns: &[Conn], cell: &Cell) -> Result<(), LinkFault>
    requires { hierarchy.is_modelled cell.now.kind ≡ true }
    ensures ok { OnOk result (IsFineCell conns.now cell.now) }
    ensures err { IfErr result (IsCellFault cell.now full.now conns.now) }
{
    check_cell(alloc, full, conns, cell)
}

/// Adds a leaf whose part is the last.
fn push_leaf(made: &mut Made, name: Name, cell: Option<usize>) -> Result<(), AllocError>
    requires { 1 ≤ length made.old.parts }
    ensures { OnOk result (HasLeaf name cell made.old made.new) }
{
    let part = made.parts.len() - 1;
    made.leaves.push(LeafPlace { name, cell, part })?;
    Ok(())
}

/// An instance as its item says: its reference, its own name and its connections.
#[derive(Clone, Copy)]
struct Inst<'a> {
    cell: &'a Name,
    name: &'a Name,
    conns: &'a Seq<Conn>,
}

/// Adds an instance of the module at a place.
fn add_module_at(
    alloc: Global,
    netlist: &Netlist,
    at: &Instance,
    inst: &Inst,
    place: usize,
    made: &mut Made,
) -> Result<Option<Instance>, LinkFault>
    requires item { IsLawfulItem netlist.now.source.now (length at.now.nets) (inst_item inst.now) }
    requires referent { IsReferent netlist.now.source.now netlist.now.library.now inst.now.cell.now (to.Module place) }
    ensures added { OnOk result (IsAdded netlist.now.source.now netlist.now.library.now (scope_of netlist.now.source.now at.now)
        (inst_item inst.now) made.old made.new) }
    ensures inner { IfOk result (IsInner netlist.now.source.now (scope_of netlist.now.source.now at.now) (inst_item inst.now) made.old.count) }
    ensures faultless { OnOk result (IsFaultless netlist.now.source.now netlist.now.library.now (scope_of netlist.now.source.now at.now)
        (inst_item inst.now)) }
    ensures err { IfErr result (IsItemFault netlist.now.source.now netlist.now.library.now (scope_of netlist.now.source.now at.now) (inst_item inst.now)) }
{
    let full = full_name(alloc, &at.prefix, inst.name)?;
    let body = netlist.source.modules.item(place);
    let nets = add_module(alloc, &at.nets, &full, inst.conns.as_slice(), body, made)?;
    let prefix = inner_prefix(alloc, &at.prefix, inst.name)?;
    let depth = sum(at.depth, 1)?;
    Ok(Some(Instance {
        prefix,
        body: place,
        nets,
        depth,
    }))
}

/// Adds an instance of the cell at a place.
fn add_cell_at(
    alloc: Global,
    netlist: &Netlist,
    at: &Instance,
    inst: &Inst,
    place: usize,
    made: &mut Made,
) -> Result<(), LinkFault>
    requires item { IsLawfulItem netlist.now.source.now (length at.now.nets) (inst_item inst.now) }
    requires referent { IsReferent netlist.now.source.now netlist.now.library.now inst.now.cell.now (to.Cell place) }
    ensures added { OnOk result (IsAdded netlist.now.source.now netlist.now.library.now (scope_of netlist.now.source.now at.now)
        (inst_item inst.now) made.old made.new) }
    ensures faultless { OnOk result (IsFaultless netlist.now.source.now netlist.now.library.now (scope_of netlist.now.source.now at.now)
        (inst_item inst.now)) }
    ensures err { IfErr result (IsItemFault netlist.now.source.now netlist.now.library.now (scope_of netlist.now.source.now at.now) (inst_item inst.now)) }
{
    let full = full_name(alloc, &at.prefix, inst.name)?;
    let cell = netlist.library.cells.item(place);
    add_cell(alloc, &at.nets, &full, inst.conns.as_slice(), cell, made)?;
    push_leaf(made, full, Some(place))?;
    Ok(())
}

/// Adds an instance.
fn add_inst(
    alloc: Global,
    netlist: &Netlist,
    at: &Instance,
    inst: &Inst,
    made: &mut Made,
) -> Result<Option<Instance>, LinkFault>
    requires item { IsLawfulItem netlist.now.source.now (length at.now.nets) (inst_item inst.now) }
    ensures added { OnOk result (IsAdded netlist.now.source.now netlist.now.library.now (scope_of netlist.now.source.now at.now)
        (inst_item inst.now) made.old made.new) }
    ensures inner { IfOk result (IsInner netlist.now.source.now (scope_of netlist.now.source.now at.now) (inst_item inst.now) made.old.count) }
    ensures faultless { OnOk result (IsFaultless netlist.now.source.now netlist.now.library.now (scope_of netlist.now.source.now at.now)
        (inst_item inst.now)) }
    ensures err { IfErr result (IsItemFault netlist.now.source.now netlist.now.library.now (scope_of netlist.now.source.now at.now) (inst_item inst.now)) }
{
    match netlist.referent(inst.cell) {
        Referent::Module(place) => add_module_at(alloc, netlist, at, inst, place, made),
        Referent::Cell(place) => {
            add_cell_at(alloc, netlist, at, inst, place, made)?;
            Ok(None)
        }
        Referent::Unknown => Err(LinkFault::UnknownCell(inst.cell.copy(alloc)?)),
    }
}

/// Adds a primitive.
fn add_prim(
    alloc: Global,
    at: &Instance,
    kind: PrimKind,
    name: &Option<Name>,
    terminals: &Terminals,
    made: &mut Made,
) -> Result<(), LinkFault>
    requires terminals { HasTerminals kind (length terminals.now.outs.now) (length terminals.now.ins.now) }
    requires outs { All (IsBelow (length at.now.nets)) terminals.now.outs.now }
    requires ins { All (IsWireBelow (length at.now.nets)) terminals.now.ins.now }
    ensures ok { OnOk result (IsPrimAdded at.now kind name.now terminals.now made.old made.new) }
    ensures err { IfErr result (IsPrimFault (length terminals.now.ins.now)) }
{
    let inputs = terminals.ins.len();
    if inputs > MOST_PINS {
        return Err(LinkFault::Limit(LimitName::Pins, 7));
    }
    let first = made.count;
    let count = sum(first, inputs)?;
    push_prim(alloc, kind, &at.nets, terminals, first, &mut made.parts)?;
    made.count = count;
    push_prim_leaf(alloc, at, name, made)?;
    Ok(())
}

/// Adds a primitive as a leaf, where it has a name.
fn push_prim_leaf(
    alloc: Global,
    at: &Instance,
    name: &Option<Name>,
    made: &mut Made,
) -> Result<(), AllocError>
    requires { 1 ≤ length made.old.parts }
    ensures { OnOk result (HasPrimLeaf at.now name.now made.old made.new) }
{
    match name {
        Some(name) => {
            let full = full_name(alloc, &at.prefix, name)?;
            push_leaf(made, full, None)
        }
        None => Ok(()),
    }
}

/// Adds an assigned bit.
fn add_copy(
    alloc: Global,
    at: &Instance,
    to: usize,
    from: Wire,
    made: &mut Made,
) -> Result<(), LinkFault>
    requires to { to < length at.now.nets }
    requires wire { IsWireBelow (length at.now.nets) from }
    ensures ok { OnOk result (IsCopyAdded at.now to from made.old made.new) }
    ensures err { IfErr result (λ e. e ≡ fault.Memory) }
{
    let first = made.count;
    let count = sum(first, 1)?;
    push_copy(alloc, &at.nets, to, from, first, &mut made.parts)?;
    made.count = count;
    Ok(())
}

/// Adds one item of an instance.
fn add_any(
    alloc: Global,
    netlist: &Netlist,
    at: &Instance,
    item: &Item,
    made: &mut Made,
) -> Result<Option<Instance>, LinkFault>
    requires item { IsLawfulItem netlist.now.source.now (length at.now.nets) item.now }
    ensures added { OnOk result (IsAdded netlist.now.source.now netlist.now.library.now (scope_of netlist.now.source.now at.now) item.now made.old made.new) }
    ensures inner { IfOk result (IsInner netlist.now.source.now (scope_of netlist.now.source.now at.now) item.now made.old.count) }
    ensures faultless { OnOk result (IsFaultless netlist.now.source.now netlist.now.library.now (scope_of netlist.now.source.now at.now) item.now) }
    ensures err { IfErr result (IsItemFault netlist.now.source.now netlist.now.library.now (scope_of netlist.now.source.now at.now) item.now) }
{
    match item {
        Item::Inst { cell, name, conns } => {
            let inst = Inst { cell, name, conns };
            add_inst(alloc, netlist, at, &inst, made)
        }
        Item::Prim {
            kind,
            name,
            outs,
            ins,
        } => {
            add_prim(alloc, at, *kind, name, &Terminals { outs, ins }, made)?;
            Ok(None)
        }
        Item::Copy { to, from } => {
            add_copy(alloc, at, *to, *from, made)?;
            Ok(None)
        }
    }
}

/// Adds one item of an instance: its own nets, its parts with its constants first, and its leaf. An item that is an instance
/// of a module is given, with its flat nets.
pub fn add_item(
    alloc: Global,
    netlist: &Netlist,
    at: &Instance,
    item: &Item,
    made: &mut Made,
) -> Result<Option<Instance>, LinkFault>
    requires item { IsLawfulItem netlist.now.source.now (length at.now.nets) item.now }
    ensures added { OnOk result (IsAdded netlist.now.source.now netlist.now.library.now (scope_of netlist.now.source.now at.now) item.now made.old made.new) }
    ensures inner { IfOk result (IsInner netlist.now.source.now (scope_of netlist.now.source.now at.now) item.now made.old.count) }
    ensures faultless { OnOk result (IsFaultless netlist.now.source.now netlist.now.library.now (scope_of netlist.now.source.now at.now) item.now) }
    ensures err { IfErr result (IsItemFault netlist.now.source.now netlist.now.library.now (scope_of netlist.now.source.now at.now) item.now) }
    ensures cause { IfErr result (IsCauseWithin netlist.now.source.now netlist.now.library.now (scope_of netlist.now.source.now at.now) item.now) }
{
    add_any(alloc, netlist, at, item, made)
}
