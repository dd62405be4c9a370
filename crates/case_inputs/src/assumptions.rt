//! Assumptions on the inside of a design.
use net_model::PinRef;
use sdcv_base::Seq;

/// Load pins of a design, and the value that they are taken to read in each cycle and at every moment within it.
///
/// A load pin is a pin of a gate or of a register, or an output port. `PinRef::Net` stands for all load pins of that net.
pub struct Assumed {
    pub pins: Seq<PinRef>,
    pub value: bool,
}

// Let go by a call of its own: whoever owns one proves nothing of how its parts are kept.
impl Drop for Assumed {
    fn drop(self) {
        let Assumed {
            pins: _pins,
            value: _value,
        } = self;
    }
}
