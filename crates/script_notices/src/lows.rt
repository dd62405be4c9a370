//! Exceptions by the least multiplier of the multicycle paths that select one of their pairs.
ghost use Rattle.std.specs.Prelude.{◌≡◌, ◌+◌, ◌<◌, ◌^◌, nat_eq, OnOk, IfOk};
ghost use Rattle.std.specs.Map.{lookup};
ghost use Rattle.selected_types.specs.declared.selections.Selected.{Selected as SelectedRecord};
ghost use Rattle.script_notices.specs.Notices as told;
ghost use Rattle.script_notices.specs.Tables as spec;

use crate::pairs::{PairLows, lesser};
use indexmap::IndexMap;
use selected_types::Selected;
use std::alloc::{AllocError, Global};
use std::marker::Model;

/// The number of each exception, from 1, of which a pair is selected by a multicycle path, with the least multiplier of these paths.
/// A look-up takes the time of one hash.
#[derive(Drop)]
pub(crate) struct Lows {
    lows: IndexMap<u64, u8>,
}

impl Model for Lows {
    ghost use Rattle.std.specs.Prelude.{List, ℕ};

    ghost Value = { List (ℕ × ℕ) };

    ghost view = { λ t. t.lows.entries };
}

impl Lows {
    /// Of all that is selected.
    pub(crate) fn new(alloc: Global, selected: &Selected) -> Result<Lows, AllocError>
        ensures { IfOk result (spec.AreLows selected.now) }
    {
        let pairs = PairLows::new(alloc, &selected.claims)?;
        let mut lows = Lows {
            lows: IndexMap::new(alloc),
        };
        for place in 0..selected.pairs.len() {
            let low = pairs.at(&selected.claims, place);
            lows.add(selected.pairs.item(place).command, low)?;
        }
        Ok(lows)
    }

    // Adds the least multiplier of a pair of an exception.
    fn add(&mut self, command: u64, low: Option<u8>) -> Result<(), AllocError>
        ensures { OnOk result (spec.IsLowered nat_eq self.old command low self.new) }
    {
        if let Some(low) = lesser(self.low(command), low) {
            self.lows.insert(command, low)?;
        }
        Ok(())
    }

    fn low(&self, command: u64) -> Option<u8>
        ensures { result ≡ lookup (nat_eq command) self.now }
    {
        self.lows.get(&command).copied()
    }

    /// Whether the exception at a place, from 0, is a safe companion of a hold number.
    pub(crate) fn is_safe(&self, number: u32, place: usize) -> bool
        requires { place + 1 < 2 ^ 64 }
        ensures { (s : SelectedRecord) → spec.AreLows s self.now → result ≡ told.is_safe s number place }
    {
        !is_low(number, self.low(place as u64 + 1))
    }
}

// Whether a multiplier, where there is one, is not above a number.
fn is_low(number: u32, low: Option<u8>) -> bool
    ensures { result ≡ spec.is_low number low }
{
    match low {
        Some(multiplier) => number >= u32::from(multiplier),
        None => false,
    }
}
