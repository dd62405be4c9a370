//! Hold numbers and their companions.
ghost use Rattle.std.specs.Prelude.{◌≡◌, ◌+◌, ◌<◌, ◌^◌};
ghost use Rattle.std.specs.Option.{option_map};
ghost use Rattle.script_notices.specs.Companions as spec;

use crate::numbers::{hold_value, is_above};
use crate::objects::{are_given, are_lists, is_edge};
use script_types::{Checks, Exception, Held, Object, What};
use sdcv_base::{Edge, Kind, Seq};

/// The hold number that a command gives to the paths of its lists: their hold checks move back by so many cycles.
#[derive(Clone, Copy)]
pub struct HoldShift<'a> {
    pub number: u32,
    pub edge: Edge,
    pub from: &'a Option<Seq<Object>>,
    pub through: &'a Seq<Seq<Object>>,
    pub to: &'a Option<Seq<Object>>,
}

impl<'a> HoldShift<'a> {
    /// Of a `-hold` command of a multicycle path.
    pub fn of_held(held: &'a Held) -> Option<HoldShift<'a>>
        ensures { option_map spec.shifted_by result ≡ spec.held_shift held.now }
    {
        let Some(number) = &held.number else {
            return None;
        };
        Some(HoldShift {
            number: hold_value(number.as_bytes()),
            edge: held.edge,
            from: &held.from,
            through: &held.through,
            to: &held.to,
        })
    }

    /// Of a multicycle path with `-setup` and `-hold`.
    pub(crate) fn of_both(exception: &'a Exception) -> Option<HoldShift<'a>>
        ensures { option_map spec.shifted_by result ≡ spec.both_shift exception.now }
    {
        match (exception.kind, exception.checks) {
            (Kind::Multi(multiplier), Checks::Both) => Some(HoldShift {
                number: u32::from(multiplier),
                edge: exception.edge,
                from: &exception.from,
                through: &exception.through,
                to: &exception.to,
            }),
            _ => None,
        }
    }
}

/// Whether a command is a companion of a hold number.
pub fn is_companion(shift: &HoldShift<'_>, what: &What) -> bool
    ensures { result ≡ spec.is_companion (spec.shifted_by shift.now) what.now }
{
    match what {
        What::Claiming(exception) => goes_with(shift, exception),
        _ => false,
    }
}

fn goes_with(shift: &HoldShift<'_>, exception: &Exception) -> bool
    ensures { result ≡ spec.goes_with (spec.shifted_by shift.now) exception.now }
{
    is_above(shift.number, exception.kind)
        && is_edge(shift.edge, exception.edge)
        && are_given(shift.from, &exception.from)
        && are_lists(shift.through, &exception.through)
        && are_given(shift.to, &exception.to)
}

/// The place of the next exception after a command, among all exceptions, where this one is that of the next one before it.
pub fn next_place(place: usize, what: &What) -> usize
    requires { place + 1 < 2 ^ 64 }
    ensures { result ≡ spec.next_place place what.now }
{
    if is_exception(what) { place + 1 } else { place }
}

fn is_exception(what: &What) -> bool
    ensures { result ≡ spec.is_exception what.now }
{
    matches!(what, What::Claiming(_) | What::Hold(_) | What::Aside(_))
}
