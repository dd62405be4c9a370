//! What is found of the pins of cells that are cut out of a circuit.
use crate::places::PinPlace;
use link_design::ClockRows;
use sdcv_base::Seq;

/// The clock tree of a circuit; marks of the nets that it drives and of those that become data inputs; and for each cell that is
/// cut out of it whether it captures at the clock's edge.
#[derive(Drop)]
pub struct CutRows {
    pub tree: ClockRows,
    pub driven: Seq<bool>,
    pub free: Seq<bool>,
    pub clocked: Seq<bool>,
}

/// The pins by which cells that are cut out of a circuit drive its free nets, one for each, and those by which they read what it
/// drives, with the numbers of its own data inputs and outputs.
#[derive(Drop)]
pub struct CutPins {
    pub rows: CutRows,
    pub free: Seq<PinPlace>,
    pub sinks: Seq<PinPlace>,
    pub inputs: usize,
    pub outputs: usize,
}
