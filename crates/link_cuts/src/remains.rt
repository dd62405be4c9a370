//! What is left of a circuit where cells are cut out of it.
use crate::rows::CutPins;
use link_defs::Circuit;

/// The circuit that is left, and the pins of the cells.
#[derive(Drop)]
pub struct Cut {
    pub circuit: Circuit,
    pub pins: CutPins,
}
