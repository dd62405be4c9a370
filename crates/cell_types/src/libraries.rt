//! What each cell of a library computes.
ghost use Rattle.std.specs.Prelude.{◌≡◌};
ghost use Rattle.cell_types.specs.Libraries.{place_of_cell};

use net_model::Func;
use sdcv_base::{Name, Seq};

/// An output pin of a combinational cell. The places of `func` are the cell's `inputs`.
pub struct CombOut {
    pub name: Name,
    pub func: Func,
}

impl Drop for CombOut {
    fn drop(self) {
        let CombOut {
            name: _name,
            func: _func,
        } = self;
    }
}

/// An output pin of a flop: the state, or its complement where it is inverted.
pub struct FlopOut {
    pub name: Name,
    pub inverted: bool,
}

impl Drop for FlopOut {
    fn drop(self) {
        let FlopOut {
            name: _name,
            inverted: _inverted,
        } = self;
    }
}

/// A rising-edge flop (Liberty, group `ff`).
///
/// The places of `next`, `clear` and `preset` are the cell's `inputs`, which leave out the clock; in `next`
/// the place after the last input is the state itself. `both` is the state where `clear` and `preset` are both 1.
pub struct Flop {
    pub clock: Name,
    pub next: Func,
    pub clear: Option<Func>,
    pub preset: Option<Func>,
    pub both: bool,
    pub outs: Seq<FlopOut>,
}

impl Drop for Flop {
    fn drop(self) {
        let Flop {
            clock: _clock,
            next: _next,
            clear: _clear,
            preset: _preset,
            both: _both,
            outs: _outs,
        } = self;
    }
}

/// A clock gate (Liberty, attribute `clock_gating_integrated_cell`): `out` follows `clock` in a cycle where an enable is 1,
/// and stays 0 in every other.
///
/// The enables are the cell's `inputs`, which leave out the clock.
pub struct GateCell {
    pub clock: Name,
    pub enables: Seq<Name>,
    pub out: Name,
}

impl Drop for GateCell {
    fn drop(self) {
        let GateCell {
            clock: _clock,
            enables: _enables,
            out: _out,
        } = self;
    }
}

/// What a cell keeps from cycle to cycle: nothing; the bits of flops or latches (Liberty, groups `ff`, `ff_bank`, `latch`,
/// `latch_bank`); or a memory (groups `statetable`, `memory`).
#[derive(Clone, Copy, PartialEq, Eq)]
pub enum Keeps {
    Nothing,
    Bits,
    Memory,
}

/// A cell that can't be modelled: its outputs, each of which is a pin, a bus or a bundle, and what it keeps.
pub struct OtherCell {
    pub outs: Seq<Name>,
    pub keeps: Keeps,
}

impl Drop for OtherCell {
    fn drop(self) {
        let OtherCell {
            outs: _outs,
            keeps: _keeps,
        } = self;
    }
}

/// What a cell is. `Other` can't be modelled, and is refused only where a design uses it.
#[derive(Drop)]
pub enum CellKind {
    Comb(Seq<CombOut>),
    Flop(Flop),
    Gate(GateCell),
    Other(OtherCell),
}

/// A cell with its input pins in order, without the clock of a flop or a clock gate, and its power pins. The inputs of one
/// that can't be modelled are pins, buses and bundles.
pub struct Cell {
    pub name: Name,
    pub inputs: Seq<Name>,
    pub power: Seq<Name>,
    pub kind: CellKind,
}

impl Drop for Cell {
    fn drop(self) {
        let Cell {
            name: _name,
            inputs: _inputs,
            power: _power,
            kind: _kind,
        } = self;
    }
}

/// The cells of a library, in the order of its text.
pub struct Library {
    pub cells: Seq<Cell>,
}

impl Drop for Library {
    fn drop(self) {
        let Library { cells: _cells } = self;
    }
}

impl Library {
    /// The place of the first cell of that name, from 0; `None` exactly where there is none.
    pub fn find(&self, name: &[u8]) -> Option<usize>
        ensures { result ≡ place_of_cell self.now.cells name.now }
    {
        self.cells
            .as_slice()
            .iter()
            .position(|cell| cell.name.as_bytes() == name)
    }
}
