//! Why a source gives no design.
ghost use Rattle.std.specs.Prelude.{◌≡◌};
ghost use Rattle.linked_types.specs.declared.faults.LinkFault.TheVariants as fault;

use sdcv_base::{LimitName, Name};
use std::alloc::{AllocError, AllocFailed};
use thiserror::Error;

/// Why a source gives no design. Cells, pins and nets are named in full (`u1/g`, `u1/g/A`), references and modules by
/// their own names; a net by one of its names.
#[derive(Debug, Drop, Error)]
pub enum LinkFault {
    /// An instance refers to this, which is no module and no cell.
    #[error("no module or cell {0}")]
    UnknownCell(Name),
    /// An instance is of this cell, which is not modelled.
    #[error("the cell {0} is not modelled")]
    UnsupportedCell(Name),
    /// This pin is connected, and its module or cell has none of that name.
    #[error("no pin {0}")]
    UnknownPin(Name),
    /// Nothing is connected to this input or clock pin of a cell, or to this first bit of an input port of a module.
    #[error("the input {0} is open")]
    OpenInput(Name),
    /// This net is read, and nothing drives it.
    #[error("nothing drives the net {0}")]
    Undriven(Name),
    /// This net has two drivers, or this output pin is connected to a constant.
    #[error("{0} has more than one driver")]
    ManyDrivers(Name),
    /// This net is on a cycle of gates.
    #[error("the net {0} is on a cycle of gates")]
    Loop(Name),
    /// The clock pin of this register or clock gate is not on the clock tree after an even number of inversions.
    #[error("{0} is not on the clock")]
    NotTheClock(Name),
    /// This net of the clock tree is read as data.
    #[error("the clock's net {0} is read as data")]
    ClockAsData(Name),
    /// This module contains itself.
    #[error("the module {0} contains itself")]
    Recursive(Name),
    /// Two cells, two port bits or two nets have this name.
    #[error("the name {0} stands for two")]
    NameClash(Name),
    /// So many modules are instantiated by none, and not one alone.
    #[error("{0} modules could be the top")]
    NoTop(u64),
    /// This count is above its limit. The number is the limit plus 1.
    #[error("limit of {0}: {1}")]
    Limit(LimitName, u64),
    /// The clock's name is no input bit, or this name of a fixed or reset input is no data input or is given twice.
    #[error("no setting for {0}")]
    BadSetting(Name),
    #[error("out of memory")]
    Memory,
}

impl From<AllocError> for LinkFault {
    ghost from_gives = { λ _ e. e ≡ fault.Memory };

    fn from(_: AllocError) -> LinkFault {
        LinkFault::Memory
    }
}

impl<T: Drop> From<AllocFailed<T>> for LinkFault {
    ghost from_gives = { λ _ e. e ≡ fault.Memory };

    fn from(_: AllocFailed<T>) -> LinkFault {
        LinkFault::Memory
    }
}
