//! The multicycle paths of each pair, by the least of their multipliers.
ghost use Rattle.std.specs.Prelude.{◌≡◌, OnOk, IfOk};
ghost use Rattle.script_notices.specs.Tables as spec;

use indexmap::IndexMap;
use net_model::{Claim, End, Kind, Start};
use sdcv_base::Seq;
use std::alloc::{AllocError, Global};
use std::marker::Model;

/// A pair of a start and an end: whether these are an input and an output, with their places.
#[derive(Clone, Copy, PartialEq, Eq, Hash)]
pub(crate) struct Ends {
    input: bool,
    start: usize,
    output: bool,
    end: usize,
}

impl Ends {
    /// The pair of a claim.
    fn of(claim: &Claim) -> Ends
        ensures { result ≡ spec.ends_of claim.now }
    {
        let (input, start) = match claim.start {
            Start::Reg(reg) => (false, reg),
            Start::Input(place) => (true, place),
        };
        let (output, end) = match claim.end {
            End::Reg(reg) => (false, reg),
            End::Output(place) => (true, place),
        };
        Ends {
            input,
            start,
            output,
            end,
        }
    }
}

/// Each pair of a multicycle path with the least multiplier of those that select it. A look-up takes the time of one hash.
#[derive(Drop)]
pub(crate) struct PairLows {
    lows: IndexMap<Ends, u8>,
}

impl Model for PairLows {
    ghost use Rattle.std.specs.Prelude.{List, ℕ};
    ghost use Rattle.script_notices.specs.declared.pairs.Ends.{Ends};

    ghost Value = { List (Ends × ℕ) };

    ghost view = { λ t. t.lows.entries };
}

/// The lesser of two multipliers, where there are any.
pub(crate) fn lesser(first: Option<u8>, second: Option<u8>) -> Option<u8>
    ensures { result ≡ spec.lesser first second }
{
    match (first, second) {
        (Some(a), Some(b)) => Some(a.min(b)),
        (Some(a), None) => Some(a),
        (None, second) => second,
    }
}

fn multiplier(kind: Kind) -> Option<u8>
    ensures { result ≡ spec.multiplier kind }
{
    match kind {
        Kind::False => None,
        Kind::Multi(k) => Some(k),
    }
}

impl PairLows {
    /// Of all claims.
    pub(crate) fn new(alloc: Global, claims: &Seq<Claim>) -> Result<PairLows, AllocError>
        ensures { IfOk result (spec.ArePairLows claims.now) }
    {
        let mut table = PairLows {
            lows: IndexMap::new(alloc),
        };
        for place in 0..claims.len() {
            table.add(claims.item(place))?;
        }
        Ok(table)
    }

    // Adds a claim.
    fn add(&mut self, claim: &Claim) -> Result<(), AllocError>
        ensures { OnOk result (spec.IsLowered spec.is_ends self.old (spec.ends_of claim.now) (spec.multiplier claim.now.kind) self.new) }
    {
        let ends = Ends::of(claim);
        if let Some(low) = lesser(self.low(ends), multiplier(claim.kind)) {
            self.lows.insert(ends, low)?;
        }
        Ok(())
    }

    // The least multiplier of a pair, where a multicycle path selects it.
    fn low(&self, ends: Ends) -> Option<u8>
        ensures { result ≡ spec.low_in self.now ends }
    {
        self.lows.get(&ends).copied()
    }

    /// The least multiplier of the pair of the claim at a place, where there is a claim.
    pub(crate) fn at(&self, claims: &Seq<Claim>, place: usize) -> Option<u8>
        ensures { spec.ArePairLows claims.now self.now → spec.IsLowAt claims.now place result }
    {
        match claims.as_slice().get(place) {
            Some(claim) => self.low(Ends::of(claim)),
            None => None,
        }
    }
}
