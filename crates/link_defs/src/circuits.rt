//! A flat netlist by numbered nets.
use net_model::{Gate, Reg};
use sdcv_base::Seq;

/// What an item of the flat netlist reads and drives.
#[derive(Drop)]
pub enum Part {
    /// A combinational cell, a primitive, an assigned bit or a constant: the nets that it reads, and a gate for each
    /// net that it drives. A `buffer` is a buffer or an inverter: it may stand on the clock tree.
    Comb {
        buffer: bool,
        ins: Seq<usize>,
        gates: Seq<Gate>,
    },
    /// A register, and the net of its clock pin.
    Flop {
        clock: usize,
        reg: Reg,
    },
    /// A clock gate: the net of its clock pin, those of its enables, and the net that it drives, which has the clock while
    /// an enable is 1.
    Gate {
        clock: usize,
        enables: Seq<usize>,
        out: usize,
    },
}

/// The parts of a flat netlist in the order in which they are met, with the nets of its ports. `clocks` has the net of
/// the clock port, if there is one.
#[derive(Drop)]
pub struct Circuit {
    pub nets: usize,
    pub clocks: Seq<usize>,
    pub inputs: Seq<usize>,
    pub outputs: Seq<usize>,
    pub parts: Seq<Part>,
}
