//! The wires that are connected to an instance.
ghost use Rattle.std.specs.Prelude.{◌≡◌, ◌<◌, length, slice_get, Some, find};
ghost use Rattle.std.specs.Option.{option_copied};
ghost use Rattle.std.specs.List.{list_any};
ghost use Rattle.std.specs.Str.{bytes_eq};
ghost use Rattle.link_defs.specs.Hierarchy.{wires_in, wires_of};
ghost use Rattle.link_items.specs.Pins.{is_const};

use netlist_types::{Conn, Wire};
use sdcv_base::Name;

/// The connection of a pin, if it is named.
fn conn_of<'a>(conns: &'a [Conn], pin: &Name) -> Option<&'a Conn>
    ensures { option_copied result ≡ find (λ conn. bytes_eq conn.pin pin.now) conns.now }
{
    conns.iter().find(|conn| conn.pin == *pin)
}

/// The wires of a connection.
pub(crate) fn wires_in(conn: &Conn) -> &[Wire]
    ensures { result.now ≡ wires_in (Some conn.now) }
{
    match &conn.wires {
        Some(wires) => wires.as_slice(),
        None => &[],
    }
}

/// The wires of a pin, the most significant first: none where it is open or not named.
#[tactic(auto, unfolding(link_defs::specs::Hierarchy::wires_of))]
pub(crate) fn wires_of<'a>(conns: &'a [Conn], pin: &Name) -> &'a [Wire]
    ensures { result.now ≡ wires_of conns.now pin.now }
{
    match conn_of(conns, pin) {
        Some(conn) => wires_in(conn),
        None => &[],
    }
}

/// The wire at a place.
pub(crate) fn wire_at(wires: &[Wire], place: usize) -> Wire
    requires { place < length wires.now }
    ensures { slice_get wires.now place ≡ Some result }
{
    wires[place]
}

/// Whether a wire is a constant.
fn is_const(wire: Wire) -> bool
    ensures { result ≡ is_const wire }
{
    match wire {
        Wire::Const(_) => true,
        Wire::Net(_) => false,
    }
}

/// Whether a constant is among wires.
pub(crate) fn has_const(wires: &[Wire]) -> bool
    ensures { result ≡ list_any is_const wires.now }
{
    wires.iter().any(|wire| is_const(*wire))
}
