//! What becomes of the commands about the hold check alone.
ghost use Rattle.std.specs.Prelude.{◌≡◌, if◌then◌else◌};
ghost use Rattle.std.specs.List.{list_all};
ghost use Rattle.std.specs.Option.{option_map};
ghost use Rattle.script_notices.specs.Companions.{shifted_by, companions_from};
ghost use Rattle.mend_lines.specs.Holds as spec;

use crate::counts::is_whole;
use mend_groups::Part;
use script_notices::{HoldShift, is_companion, next_place};
use script_types::{Held, Script};

/// What becomes of a `-hold` command: it stays; it goes by the new commands of the exception of this place among all exceptions,
/// from 0; or it is left out.
#[derive(Clone, Copy)]
pub enum HoldFate {
    Stays,
    Follows(usize),
    LeftOut,
}

/// What becomes of a `-hold` command of a script with these parts.
pub fn hold_fate(script: &Script, parts: &[Part], held: &Held) -> HoldFate
    ensures { result ≡ spec.hold_fate script.now parts.now held.now }
{
    fate_shifted(script, parts, HoldShift::of_held(held))
}

fn fate_shifted(script: &Script, parts: &[Part], shift: Option<HoldShift<'_>>) -> HoldFate
    ensures { result ≡ spec.fate_shifted script.now parts.now (option_map shifted_by shift.entry) }
{
    match shift {
        Some(shift) => fate_of(script, parts, &shift),
        None => HoldFate::Stays,
    }
}

fn fate_of(script: &Script, parts: &[Part], shift: &HoldShift<'_>) -> HoldFate
    ensures { result ≡ spec.fate_of script.now parts.now (shifted_by shift.now) }
{
    if shift.number == 0 || are_whole(parts) {
        HoldFate::Stays
    } else {
        fate_by(script, parts, shift)
    }
}

fn are_whole(parts: &[Part]) -> bool
    ensures { result ≡ list_all spec.is_whole parts.now }
{
    parts.iter().all(|part| is_whole(part))
}

fn is_whole_at(parts: &[Part], place: usize) -> bool
    ensures { result ≡ spec.is_whole_at parts.now place }
{
    match parts.get(place) {
        Some(part) => is_whole(part),
        None => false,
    }
}

// By its companions: it stays where one of them does, and else follows the last one.
fn fate_by(script: &Script, parts: &[Part], shift: &HoldShift<'_>) -> HoldFate
    ensures { result ≡ spec.fate_by parts.now (companions_from (shifted_by shift.now) 0 script.now.commands) }
{
    let mut fate = HoldFate::LeftOut;
    let mut place = 0;
    for k in 0..script.commands.len() {
        let what = &script.commands.item(k).what;
        let goes = is_companion(shift, what);
        if goes && is_whole_at(parts, place) {
            return HoldFate::Stays;
        }
        fate = fate_here(fate, goes, place);
        place = next_place(place, what);
    }
    fate
}

fn fate_here(fate: HoldFate, goes: bool, place: usize) -> HoldFate
    ensures { result ≡ (if goes then HoldFate.Follows place else fate) }
{
    if goes { HoldFate::Follows(place) } else { fate }
}
