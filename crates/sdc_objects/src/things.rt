//! Things that have names.
ghost use Rattle.std.specs.Prelude.{◌≡◌, ◌++◌, OnOk};
ghost use Rattle.sdcv_base.specs.Seqs.{where_true};

use sdcv_base::Seq;
use std::alloc::AllocError;

/// A thing that an object of a script can name: a cell, an input bit or an output bit by its place among the names of the
/// design, a pin by its cell's place and its own there, a net by its number, a clock by the place of its command in the script
/// and by how it stands to the judged one. In a strict run a clock is named with what has a delay of it.
#[derive(Clone, Copy, PartialEq, Eq)]
pub enum Thing {
    Cell(usize),
    Pin(usize, usize),
    In(usize),
    Out(usize),
    ClockPort,
    Net(usize),
    Clock(usize, ClockKind),
    Delayed(usize),
}

/// How a clock stands to the judged one: its source is the judged clock's port bit, or another, or it has none.
#[derive(Clone, Copy, PartialEq, Eq)]
pub enum ClockKind {
    Judged,
    Other,
    Virtual,
}

/// The place of an object in an exception.
#[derive(Clone, Copy, PartialEq, Eq)]
pub enum Place {
    From,
    To,
    Through,
}

/// On which side of the design a port stands.
#[derive(Clone, Copy, PartialEq, Eq)]
pub enum Side {
    In,
    Out,
}

/// Adds a thing where it is one of those that are looked for.
pub(crate) fn add_where(
    wanted: bool,
    thing: Thing,
    found: &mut Seq<Thing>,
) -> Result<(), AllocError>
    ensures { OnOk result (found.new ≡ found.old ++ where_true wanted thing) }
{
    if wanted {
        found.push(thing)?;
    }
    Ok(())
}
