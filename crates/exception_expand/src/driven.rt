//! The inputs that cells drive which are cut out.
ghost use Rattle.std.specs.Prelude.{◌≡◌, ◌<◌, ◌||◌, ◌==◌, ℕ, length, IfOk};
ghost use Rattle.exception_expand.specs.Points as spec;
ghost use Rattle.exception_expand.specs.Choices.{AreDriven};

use linked_types::{CellName, PinName, PinRole};
use sdcv_base::Seq;
use std::alloc::{AllocError, Global};

/// For each of so many inputs, whether a clocked cell drives it which is cut out.
pub(crate) fn driven(
    alloc: Global,
    cells: &Seq<CellName>,
    inputs: usize,
) -> Result<Seq<bool>, AllocError>
    ensures { IfOk result (AreDriven cells.now inputs) }
{
    let mut marks = Seq::filled(alloc, false, inputs)?;
    for k in 0..cells.len() {
        mark_pins(&cells.item(k).pins, &mut marks);
    }
    Ok(marks)
}

fn mark_pins(pins: &Seq<PinName>, marks: &mut Seq<bool>)
    ensures len { length marks.new ≡ length marks.old }
    ensures marked { (i : ℕ) → i < length marks.old → spec.has_mark marks.new i ≡ (spec.has_mark marks.old i || spec.drives i pins.now) }
{
    for k in 0..pins.len() {
        mark_source(&pins.item(k).role, marks);
    }
}

fn mark_source(role: &PinRole, marks: &mut Seq<bool>)
    ensures len { length marks.new ≡ length marks.old }
    ensures marked { (i : ℕ) → i < length marks.old → spec.has_mark marks.new i ≡ (spec.has_mark marks.old i || spec.is_source_of i role.now) }
{
    match role {
        PinRole::Source(input) => mark_input(*input, marks),
        PinRole::Clock | PinRole::Load(_) | PinRole::Drive(_) | PinRole::Sink(_) => {}
    }
}

fn mark_input(input: usize, marks: &mut Seq<bool>)
    ensures len { length marks.new ≡ length marks.old }
    ensures marked { (i : ℕ) → i < length marks.old → spec.has_mark marks.new i ≡ (spec.has_mark marks.old i || (input == i)) }
{
    if input < marks.len() {
        marks.put(input, true);
    }
}
