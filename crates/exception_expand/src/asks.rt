//! What the exceptions of a script ask.
ghost use Rattle.std.specs.Prelude.{◌≡◌, if◌then◌else◌, Some};
ghost use Rattle.std.specs.Option.{option_map};
ghost use Rattle.exception_expand.specs.Asking as spec;
ghost use Rattle.script_types.specs.declared.scripts.What.TheVariants as whats;

use crate::sides::Sides;
use script_types::{Checks, Exception, Held, Object, What};
use sdcv_base::{Edge, Kind, Seq};
use selected_types::Listing;

/// An exception that claims something of pairs: its kind and checks, the lists that select the pairs, and the sides of these.
#[derive(Clone, Copy)]
pub struct Ask<'a> {
    pub kind: Kind,
    pub checks: Checks,
    pub edge: Edge,
    pub from: &'a Option<Seq<Object>>,
    pub through: &'a Seq<Seq<Object>>,
    pub to: &'a Option<Seq<Object>>,
    pub sides: Sides,
}

impl<'a> Ask<'a> {
    /// What a command asks, where it claims something. With `hold` the hold side of false paths is judged too.
    pub fn of(what: &'a What, hold: bool) -> Option<Ask<'a>>
        ensures { option_map spec.asked_by result ≡ spec.asked hold what.now }
    {
        match what {
            What::Claiming(exception) => Some(Ask::of_exception(exception, hold)),
            What::Hold(held) => Ask::of_held(held, hold),
            _ => None,
        }
    }

    fn of_exception(exception: &'a Exception, hold: bool) -> Ask<'a>
        ensures { Some (spec.asked_by result) ≡ spec.asked hold (whats.Claiming exception.now) }
    {
        Ask {
            kind: exception.kind,
            checks: exception.checks,
            edge: exception.edge,
            from: &exception.from,
            through: &exception.through,
            to: &exception.to,
            sides: sides_of(hold, exception.kind, exception.checks),
        }
    }

    fn of_held(held: &'a Held, hold: bool) -> Option<Ask<'a>>
        ensures { option_map spec.asked_by result ≡ spec.asked hold (whats.Hold held.now) }
    {
        if !is_hold_side(held, hold) {
            return None;
        }
        Some(Ask {
            kind: Kind::False,
            checks: Checks::Unsaid,
            edge: held.edge,
            from: &held.from,
            through: &held.through,
            to: &held.to,
            sides: Sides::Early,
        })
    }

    /// How it is listed with so many claims.
    pub(crate) fn listing(&self, count: u64) -> Listing
        ensures { result ≡ spec.listing_of (spec.asked_by self.now) count }
    {
        match self.sides {
            Sides::Early => Listing::HoldSide(self.edge, count),
            Sides::Late | Sides::Both => Listing::Claiming(self.kind, self.edge, count),
        }
    }
}

// The sides that an exception without `-hold`, or with `-setup` too, claims.
fn sides_of(hold: bool, kind: Kind, checks: Checks) -> Sides
    ensures { result ≡ spec.sides_of hold kind checks }
{
    match kind {
        Kind::False => false_sides(hold, checks),
        Kind::Multi(_) => Sides::Late,
    }
}

fn false_sides(hold: bool, checks: Checks) -> Sides
    ensures { result ≡ spec.false_sides hold checks }
{
    match checks {
        Checks::Setup => Sides::Late,
        Checks::Unsaid | Checks::Both => sides_where(hold),
    }
}

fn sides_where(hold: bool) -> Sides
    ensures { result ≡ (if hold then Sides.Both else Sides.Late) }
{
    if hold { Sides::Both } else { Sides::Late }
}

// A `set_false_path -hold` has no number.
fn is_hold_side(held: &Held, hold: bool) -> bool
    ensures { result ≡ spec.is_hold_side hold held.now.number }
{
    held.number.is_none() && hold
}
