//! The connections of an instance of a module, which may be many, each found by its pin.
ghost use Rattle.std.specs.Prelude.{◌≡◌, [], map, IfOk};
ghost use Rattle.std.specs.List.{IsDistinct};
ghost use Rattle.std.specs.Str.{bytes_eq};
ghost use Rattle.texts.specs.Names.{with_names};
ghost use Rattle.link_defs.specs.Hierarchy.{wires_of};
ghost use Rattle.link_items.specs.Pins.{pin_names, is_open, is_tied};

use crate::conns::{has_const, wires_in};
use netlist_types::{Conn, Wire};
use sdcv_base::Name;
use std::alloc::{AllocError, Global};
use std::marker::Model;
use texts::NameTable;

/// The connections of an instance, and a table of the names of their pins. A look-up takes the time of one hash.
///
/// Contracts see the list.
#[derive(Drop)]
pub(crate) struct ConnTable<'a> {
    list: &'a [Conn],
    pins: NameTable,
}

impl<'a> Model for ConnTable<'a> {
    ghost use Rattle.std.specs.Prelude.{◌≡◌, List};
    ghost use Rattle.netlist_types.specs.declared.sources.Conn.{Conn};
    ghost use Rattle.link_items.specs.Pins.{pin_names};

    ghost Value = { List Conn };

    ghost view = { λ t. t.list.now };

    ghost invariant = { λ t. t.pins ≡ pin_names t.list.now };
}

/// The names of the pins of connections in their order.
fn pins_table(alloc: Global, conns: &[Conn]) -> Result<NameTable, AllocError>
    ensures { IfOk result (λ names. names ≡ with_names [] (pin_names conns.now)) }
{
    let mut names = NameTable::new(alloc);
    for conn in conns {
        names.add(alloc, &conn.pin)?;
    }
    Ok(names)
}

impl<'a> ConnTable<'a> {
    /// The table of connections to pins that differ.
    pub(crate) fn of(alloc: Global, list: &'a [Conn]) -> Result<ConnTable<'a>, AllocError>
        requires { IsDistinct bytes_eq (pin_names list.now) }
        ensures { IfOk result (λ t. t ≡ list.now) }
    {
        let pins = pins_table(alloc, list)?;
        Ok(ConnTable { list, pins })
    }

    /// The connections themselves.
    pub(crate) fn list(&self) -> &'a [Conn]
        ensures { result.now ≡ self.now }
    {
        self.list
    }

    /// The wires of a pin, the most significant first: none where it is open or not named.
    pub(crate) fn wires_of(&self, pin: &Name) -> &'a [Wire]
        ensures { result.now ≡ wires_of self.now pin.now }
    {
        match self.list.get(self.pins.place(pin)) {
            Some(conn) => wires_in(conn),
            None => &[],
        }
    }

    /// Whether nothing is connected to a pin.
    pub(crate) fn is_open(&self, pin: &Name) -> bool
        ensures { result ≡ is_open self.now pin.now }
    {
        self.wires_of(pin).len() == 0
    }

    /// Whether a constant is connected to a pin.
    pub(crate) fn is_tied(&self, pin: &Name) -> bool
        ensures { result ≡ is_tied self.now pin.now }
    {
        has_const(self.wires_of(pin))
    }
}
