//! What stands in the place of each command of a script.
ghost use Rattle.std.specs.Prelude.{◌≡◌, ◌+◌, ◌<◌, ◌^◌, IfOk};
ghost use Rattle.exception_expand.specs.Asking.{asked_by};
ghost use Rattle.mend_lines.specs.Bodies as spec;

use crate::claim_bodies::part_body;
use crate::hold_bodies::hold_body;
use crate::mendings::Mending;
use exception_expand::Ask;
use script_notices::next_place;
use script_types::What;
use sdcv_base::{Name, Seq};
use std::alloc::{AllocError, Global};

/// What stands in the place of each command, in their order; `None` where the command stays as it is written.
pub fn bodies(alloc: Global, mending: &Mending<'_>) -> Result<Seq<Option<Name>>, AllocError>
    ensures { IfOk result (λ bodies. bodies ≡ spec.bodies_of mending.now.depth mending.now.script.now mending.now.hold mending.now.selected.now
        mending.now.verdicts.now mending.now.parts.now) }
{
    let mut bodies = Seq::new(alloc);
    let mut place = 0;
    for k in 0..mending.script.commands.len() {
        let what = &mending.script.commands.item(k).what;
        bodies.push(body_of(alloc, mending, place, what)?)?;
        place = next_place(place, what);
    }
    Ok(bodies)
}

fn body_of(
    alloc: Global,
    mending: &Mending<'_>,
    place: usize,
    what: &What,
) -> Result<Option<Name>, AllocError>
    requires { place + 1 < 2 ^ 64 }
    ensures { IfOk result (λ body. body ≡ spec.body_of mending.now.depth mending.now.script.now mending.now.hold mending.now.selected.now
        mending.now.verdicts.now mending.now.parts.now place what.now) }
{
    match Ask::of(what, mending.hold) {
        Some(ask) => claim_body_at(alloc, mending, place, &ask),
        None => body_unasked(alloc, mending, place, what),
    }
}

// In the place of a command that claims nothing.
fn body_unasked(
    alloc: Global,
    mending: &Mending<'_>,
    place: usize,
    what: &What,
) -> Result<Option<Name>, AllocError>
    requires { place + 1 < 2 ^ 64 }
    ensures { IfOk result (λ body. body ≡ spec.body_unasked mending.now.script.now mending.now.selected.now mending.now.parts.now place what.now) }
{
    match what {
        What::Hold(held) => hold_body(alloc, mending, place as u64 + 1, held),
        _ => Ok(None),
    }
}

fn claim_body_at(
    alloc: Global,
    mending: &Mending<'_>,
    place: usize,
    ask: &Ask<'_>,
) -> Result<Option<Name>, AllocError>
    requires { place + 1 < 2 ^ 64 }
    ensures { IfOk result (λ body. body ≡ spec.body_at mending.now.depth mending.now.selected.now mending.now.verdicts.now
        mending.now.parts.now place (asked_by ask.now)) }
{
    match mending.parts.get(place) {
        Some(part) => part_body(alloc, mending, place as u64 + 1, ask, part),
        None => Ok(None),
    }
}
