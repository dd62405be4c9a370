//! The input bits without the clock's, and the clock's.
ghost use Rattle.std.specs.Option.{option_copied};
ghost use Rattle.std.specs.Prelude.{◌≡◌, ◌++◌, [], find, if◌then◌else◌, IfOk, OnOk};
ghost use Rattle.texts.specs.Names.{with_names};
ghost use Rattle.link_tops.specs.Clashes.{port_names};
ghost use Rattle.net_link.specs.Data.{is_clock as has_clock, clock_in, data_ports, data_port};

use linked_types::PortName;
use sdcv_base::{Name, Seq};
use std::alloc::{AllocError, Global};
use texts::NameTable;

/// Whether a name is the clock's.
fn is_clock(clock: &Option<Name>, name: &Name) -> bool
    ensures { result ≡ has_clock clock.now name.now }
{
    match clock {
        Some(bit) => *name == *bit,
        None => false,
    }
}

/// An equal name, if there is one.
fn copy_bus(alloc: Global, bus: &Option<Name>) -> Result<Option<Name>, AllocError>
    ensures { IfOk result (λ copied. copied ≡ bus.now) }
{
    match bus {
        Some(name) => Ok(Some(name.copy(alloc)?)),
        None => Ok(None),
    }
}

/// An equal bit.
fn copy_port(alloc: Global, port: &PortName) -> Result<PortName, AllocError>
    ensures { IfOk result (λ copied. copied ≡ port.now) }
{
    let name = port.name.copy(alloc)?;
    let bus = copy_bus(alloc, &port.bus)?;
    Ok(PortName { name, bus })
}

/// The clock's bit, if it is there.
fn clock_bit<'a>(ports: &'a [PortName], clock: &Option<Name>) -> Option<&'a PortName>
    ensures { option_copied result ≡ clock_in clock.now ports.now }
{
    ports.iter().find(|port| is_clock(clock, &port.name))
}

/// The clock's bit by name, if it is there.
pub(crate) fn clock_port(
    alloc: Global,
    ports: &Seq<PortName>,
    clock: &Option<Name>,
) -> Result<Option<PortName>, AllocError>
    ensures { IfOk result (λ port. port ≡ clock_in clock.now ports.now) }
{
    match clock_bit(ports.as_slice(), clock) {
        Some(port) => Ok(Some(copy_port(alloc, port)?)),
        None => Ok(None),
    }
}

/// Appends a bit, if it is not the clock's.
fn push_data(
    alloc: Global,
    list: &mut Seq<PortName>,
    clock: &Option<Name>,
    port: &PortName,
) -> Result<(), AllocError>
    ensures { OnOk result (list.new ≡ list.old ++ data_port clock.now port.now) }
{
    if !is_clock(clock, &port.name) {
        let port = copy_port(alloc, port)?;
        list.push(port)?;
    }
    Ok(())
}

/// The bits without the clock's, in their order.
pub(crate) fn data_names(
    alloc: Global,
    ports: &Seq<PortName>,
    clock: &Option<Name>,
) -> Result<Seq<PortName>, AllocError>
    ensures { IfOk result (λ list. list ≡ data_ports clock.now ports.now) }
{
    let mut list = Seq::new(alloc);
    for k in 0..ports.len() {
        push_data(alloc, &mut list, clock, ports.item(k))?;
    }
    Ok(list)
}

/// The names of bits in a table.
pub(crate) fn data_table(alloc: Global, ports: &Seq<PortName>) -> Result<NameTable, AllocError>
    ensures { IfOk result (λ names. names ≡ with_names [] (port_names ports.now)) }
{
    let mut names = NameTable::new(alloc);
    for k in 0..ports.len() {
        names.add(alloc, &ports.item(k).name)?;
    }
    Ok(names)
}
