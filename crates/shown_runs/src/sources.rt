//! Where pins take their values from.
ghost use Rattle.std.specs.Prelude.{◌≡◌, ◌≤◌, ◌∷◌, List, false, length, drop};
ghost use Rattle.net_model.specs.Pins.{is_in};
ghost use Rattle.net_model.specs.Layers.{held_set};
ghost use Rattle.net_model.specs.Paths.{Meets};
ghost use Rattle.net_model.specs.declared.claims.PinRef.{PinRef as Pin};
ghost use Rattle.shown_runs.specs.Sources.{pin_of};

use net_model::{PinRef, PinSet, is_held};
use sdcv_base::Seq;

/// A net that a pin reads, and the layer in which the net's driver gives the value.
#[derive(Clone, Copy)]
pub(crate) struct Source {
    pub net: usize,
    pub layer: usize,
}

/// A gate or a register, of whose input pins one may be meant.
#[derive(Clone, Copy)]
pub(crate) enum Reader {
    Gate(usize),
    Reg(usize),
}

impl Reader {
    /// Its input pin at a place.
    pub fn pin(self, place: usize) -> PinRef
        ensures { result ≡ pin_of self place }
    {
        match self {
            Reader::Gate(gate) => PinRef::GateIn(gate, place),
            Reader::Reg(reg) => PinRef::RegIn(reg, place),
        }
    }
}

/// The highest layer up to this one whose set does not have the pin. In each layer above it a path meets the layer's set
/// at the pin.
pub(crate) fn free_layer(sets: &Seq<PinSet>, layer: usize, pin: PinRef) -> usize
    requires { layer ≤ length sets.now }
    ensures below { result ≤ layer }
    ensures free { is_in pin (held_set sets.now result) ≡ false }
    ensures meets { (path : List Pin) → Meets (drop layer sets.now) (pin ∷ path) → Meets (drop result sets.now) (pin ∷ path) }
{
    if is_held(sets, layer, pin) {
        free_layer(sets, layer - 1, pin)
    } else {
        layer
    }
}
