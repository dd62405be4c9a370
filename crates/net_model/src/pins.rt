//! Sets of pins.
ghost use Rattle.std.specs.Prelude.{◌≡◌, ◌≤◌, ◌↔◌, IfOk, IsTrue, Contains, length};
ghost use Rattle.net_model.specs.Pins.{is_in};
ghost use Rattle.net_model.specs.Layers.{held_set};

use crate::claims::PinRef;
use sdcv_base::Seq;
use std::alloc::{AllocError, Global};
use std::marker::Model;

/// A set of pins. Contracts see the pins as they were listed.
///
/// A set is put into order once, when it is made, so that looking up a pin among n takes log n steps.
#[derive(Drop)]
pub struct PinSet {
    listed: Seq<PinRef>,
    ascending: Seq<PinRef>,
}

impl Model for PinSet {
    ghost use Rattle.std.specs.Prelude.{List};
    ghost use Rattle.net_model.specs.declared.claims.PinRef.{PinRef as Pin};
    ghost use Rattle.net_model.specs.PinSets.{IsAscending};

    ghost Value = { List Pin };

    ghost view = { λ set. set.listed };

    ghost invariant = { λ set. IsAscending ⟦<PinRef as Ord>⟧.cmp set.listed set.ascending };
}

impl PinSet {
    /// The set of these pins, in which a pin may stand twice.
    pub fn of(alloc: Global, pins: &[PinRef]) -> Result<PinSet, AllocError>
        ensures { IfOk result (λ set. set ≡ pins.now) }
    {
        let listed = Seq::of(alloc, pins)?;
        let mut ascending = Vec::from_slice(alloc, pins)?;
        ascending.sort_unstable();
        Ok(PinSet {
            listed,
            ascending: Seq::from_vec(ascending),
        })
    }

    /// The pins as they were listed.
    pub fn pins(&self) -> &Seq<PinRef>
        ensures { result.now ≡ self.now }
    {
        &self.listed
    }

    /// Whether a pin is in the set.
    pub fn has(&self, pin: PinRef) -> bool
        ensures answer { result ≡ is_in pin self.now }
        ensures listed { IsTrue result ↔ Contains self.now pin }
    {
        self.ascending.as_slice().binary_search(&pin).is_ok()
    }
}

/// Whether a pin is in the set of a layer. The first layer, number 0, has none.
pub fn is_held(sets: &Seq<PinSet>, layer: usize, pin: PinRef) -> bool
    requires { layer ≤ length sets.now }
    ensures { result ≡ is_in pin (held_set sets.now layer) }
{
    layer > 0 && sets.item(layer - 1).has(pin)
}
