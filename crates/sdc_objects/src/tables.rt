//! Tables of the names of a design.
ghost use Rattle.std.specs.Prelude.{◌≡◌, ◌++◌, [], IfOk, OnOk, flat_map};
ghost use Rattle.texts.specs.Names.{with_names, each_once};
ghost use Rattle.glob.specs.Indexes.{IsIndexOf};
ghost use Rattle.sdcv_base.specs.Seqs.{option_list};
ghost use Rattle.sdc_objects.specs.Tables.{IsTablesOf, port_names, bit_names, clock_names, cell_names, net_names};
ghost use Rattle.sdc_objects.specs.Clocks as spec;
ghost use Rattle.sdc_objects.specs.Cuts as cuts;
ghost use Rattle.linked_types.specs.declared.names.Linked.{Linked as LinkedRecord};

use glob::Index;
use linked_types::{CellName, Linked, Names, NetName, PortName};
use sdcv_base::{Name, Seq};
use std::alloc::{AllocError, Global};
use texts::NameTable;

/// The names of a design: those of its ports and their buses, and those of its cells and nets with their places; the place
/// of the first cell that is cut out; and the input port bits, the clock's among them. It is made once for a design.
#[derive(Drop)]
pub struct Tables {
    pub(crate) ports: NameTable,
    pub(crate) cells: Index,
    pub(crate) nets: Index,
    pub(crate) first_cut: usize,
    pub(crate) inputs: Seq<PortName>,
}

impl Tables {
    /// The tables of a linked design.
    pub fn of(alloc: Global, linked: &Linked) -> Result<Tables, AllocError>
        ensures { IfOk result (IsTablesOf linked.now) }
    {
        let mut tables = Tables {
            ports: NameTable::new(alloc),
            cells: Index::new(alloc),
            nets: Index::new(alloc),
            first_cut: first_cut(&linked.names),
            inputs: input_ports(alloc, &linked.names)?,
        };
        tables.fill(alloc, &linked.names)?;
        Ok(tables)
    }

    fn fill(&mut self, alloc: Global, names: &Names) -> Result<(), AllocError>
        requires ports { self.old.ports ≡ [] }
        requires cells { IsIndexOf [] self.old.cells }
        requires nets { IsIndexOf [] self.old.nets }
        ensures ports { OnOk result (self.new.ports ≡ each_once (port_names names.now)) }
        ensures cells { OnOk result (IsIndexOf (cell_names names.now.cells) self.new.cells) }
        ensures nets { OnOk result (IsIndexOf (net_names names.now.nets) self.new.nets) }
        ensures first_cut { self.new.first_cut ≡ self.old.first_cut }
        ensures inputs { self.new.inputs ≡ self.old.inputs }
    {
        add_ports(alloc, names, &mut self.ports)?;
        add_cells(alloc, &names.cells, &mut self.cells)?;
        add_nets(alloc, &names.nets, &mut self.nets)
    }

    /// Whether the cell at a place is cut out.
    pub(crate) fn is_cut(&self, k: usize) -> bool
        ensures { (l : LinkedRecord) → IsTablesOf l self.now → result ≡ cuts.is_cut l.names k }
    {
        k >= self.first_cut
    }
}

// Those that are cut out stand after all other cells.
fn first_cut(names: &Names) -> usize
    ensures { result ≡ cuts.first_cut names.now }
{
    let mut first = names.cells.len();
    for k in 0..names.cuts.len() {
        first = first.saturating_sub(names.cuts.item(k).count);
    }
    first
}

// The input port bits, the clock's first.
fn input_ports(alloc: Global, names: &Names) -> Result<Seq<PortName>, AllocError>
    ensures { IfOk result (λ ports. ports ≡ spec.input_ports names.now) }
{
    let mut ports = Seq::new(alloc);
    if let Some(clock) = &names.clock {
        ports.push(copied(alloc, clock)?)?;
    }
    add_copies(alloc, &names.ins, &mut ports)?;
    Ok(ports)
}

fn add_copies(
    alloc: Global,
    more: &Seq<PortName>,
    ports: &mut Seq<PortName>,
) -> Result<(), AllocError>
    ensures { OnOk result (ports.new ≡ ports.old ++ more.now) }
{
    for k in 0..more.len() {
        let port = copied(alloc, more.item(k))?;
        ports.push(port)?;
    }
    Ok(())
}

fn copied(alloc: Global, port: &PortName) -> Result<PortName, AllocError>
    ensures { IfOk result (λ copy. copy ≡ port.now) }
{
    Ok(PortName {
        name: port.name.copy(alloc)?,
        bus: copied_option(alloc, &port.bus)?,
    })
}

fn copied_option(alloc: Global, name: &Option<Name>) -> Result<Option<Name>, AllocError>
    ensures { IfOk result (λ copy. copy ≡ name.now) }
{
    match name {
        Some(name) => Ok(Some(name.copy(alloc)?)),
        None => Ok(None),
    }
}

// Adds the names by which ports are found.
fn add_ports(alloc: Global, names: &Names, table: &mut NameTable) -> Result<(), AllocError>
    requires { table.old ≡ [] }
    ensures { OnOk result (table.new ≡ each_once (port_names names.now)) }
{
    add_bits(alloc, &names.ins, table)?;
    add_clock(alloc, &names.clock, table)?;
    add_bits(alloc, &names.outs, table)
}

fn add_clock(
    alloc: Global,
    clock: &Option<PortName>,
    table: &mut NameTable,
) -> Result<(), AllocError>
    ensures { OnOk result (table.new ≡ with_names table.old (clock_names clock.now)) }
{
    if let Some(port) = clock {
        table.add(alloc, &port.name)?;
    }
    Ok(())
}

fn add_bits(alloc: Global, ports: &Seq<PortName>, table: &mut NameTable) -> Result<(), AllocError>
    ensures { OnOk result (table.new ≡ with_names table.old (flat_map bit_names ports.now)) }
{
    for k in 0..ports.len() {
        add_bit(alloc, ports.item(k), table)?;
    }
    Ok(())
}

fn add_bit(alloc: Global, port: &PortName, table: &mut NameTable) -> Result<(), AllocError>
    ensures { OnOk result (table.new ≡ with_names table.old (bit_names port.now)) }
{
    table.add(alloc, &port.name)?;
    add_option(alloc, &port.bus, table)
}

fn add_option(alloc: Global, name: &Option<Name>, table: &mut NameTable) -> Result<(), AllocError>
    ensures { OnOk result (table.new ≡ with_names table.old (option_list name.now)) }
{
    if let Some(name) = name {
        table.add(alloc, name)?;
    }
    Ok(())
}

fn add_cells(alloc: Global, cells: &Seq<CellName>, index: &mut Index) -> Result<(), AllocError>
    requires { IsIndexOf [] index.old }
    ensures { OnOk result (IsIndexOf (cell_names cells.now) index.new) }
{
    for k in 0..cells.len() {
        index.add(alloc, &cells.item(k).name)?;
    }
    Ok(())
}

fn add_nets(alloc: Global, nets: &Seq<NetName>, index: &mut Index) -> Result<(), AllocError>
    requires { IsIndexOf [] index.old }
    ensures { OnOk result (IsIndexOf (net_names nets.now) index.new) }
{
    for k in 0..nets.len() {
        index.add(alloc, &nets.item(k).name)?;
    }
    Ok(())
}
