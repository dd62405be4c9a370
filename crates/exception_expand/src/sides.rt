//! The sides of a pair.
ghost use Rattle.std.specs.Prelude.{◌≡◌, ◌++◌, IfOk, OnOk, flat_map};
ghost use Rattle.exception_expand.specs.Sides as spec;

use crate::pairs::Pair;
use sdcv_base::Seq;
use std::alloc::{AllocError, Global};

/// Of which sides of its pairs an exception claims something: of the late one, that no change of the start is captured late, of
/// the early one, that none is captured early, or of both.
#[derive(Clone, Copy, PartialEq, Eq)]
pub enum Sides {
    Late,
    Early,
    Both,
}

/// A pair, and one of its sides.
#[derive(Clone, Copy)]
pub struct Side {
    pub early: bool,
    pub pair: Pair,
}

impl Sides {
    /// How many pairs have room for a claim of each of these sides, where there is room for so many claims.
    pub(crate) fn most_pairs(self, room: usize) -> usize
        ensures { result ≡ spec.most_pairs self room }
    {
        match self {
            Sides::Late | Sides::Early => room,
            Sides::Both => room / 2,
        }
    }

    /// These sides of each pair, pair by pair, late before early.
    pub(crate) fn of_pairs(self, alloc: Global, pairs: &Seq<Pair>) -> Result<Seq<Side>, AllocError>
        ensures { IfOk result (λ found. found ≡ flat_map (spec.sides_by self) pairs.now) }
    {
        let mut found = Seq::new(alloc);
        for k in 0..pairs.len() {
            self.push_of(pairs.at(k), &mut found)?;
        }
        Ok(found)
    }

    fn push_of(self, pair: Pair, found: &mut Seq<Side>) -> Result<(), AllocError>
        ensures { OnOk result (found.new ≡ found.old ++ spec.sides_by self pair) }
    {
        match self {
            Sides::Late => Ok(found.push(Side { early: false, pair })?),
            Sides::Early => Ok(found.push(Side { early: true, pair })?),
            Sides::Both => push_both(pair, found),
        }
    }
}

fn push_both(pair: Pair, found: &mut Seq<Side>) -> Result<(), AllocError>
    ensures { OnOk result (found.new ≡ found.old ++ spec.sides_by Sides.Both pair) }
{
    found.push(Side { early: false, pair })?;
    found.push(Side { early: true, pair })?;
    Ok(())
}
