//! What the end captures in the judged cycle, and in the one before it.
ghost use Rattle.std.specs.Prelude.{◌≡◌, ◌++◌, IfOk, OnOk, string_bytes, flat_map};
ghost use Rattle.net_model.specs.Cycles.{bit_at};
ghost use Rattle.shown_runs.specs.Lines as spec;

use crate::lates::Late;
use crate::pieces::{add_text, bit_text};
use crate::runs::ShownRun;
use net_model::Tern;
use sdcv_base::{Name, Seq};
use std::alloc::{AllocError, Global};

fn bit_at(bits: &Seq<bool>, place: usize) -> bool
    ensures { result ≡ bit_at bits.now place }
{
    bits.as_slice().get(place).copied().unwrap_or(false)
}

#[tactic(auto, unfolding(crate::specs::Lines::capture_text))]
fn capture_text(alloc: Global, cycle: usize, bit: bool) -> Result<String, AllocError>
    ensures { IfOk result (λ text. string_bytes text ≡ spec.capture_text cycle bit) }
{
    let bit = bit_text(bit);
    format!(in alloc; "capture of cycle {cycle}: {bit}")
}

/// Which value of the start is tried: the one before its change, or on the early side the one after it.
fn side_text(early: bool) -> &'static str
    ensures { result.now ≡ spec.side_text early }
{
    if early { "new" } else { "old" }
}

#[tactic(auto, unfolding(crate::specs::Lines::late_text))]
fn late_text(alloc: Global, early: bool, cycle: usize, late: &Late) -> Result<String, AllocError>
    ensures { IfOk result (λ text. string_bytes text ≡ spec.late_text early cycle late.now) }
{
    let side = side_text(early);
    let other = bit_text(late.other);
    let captured = bit_text(late.captured);
    format!(in alloc;
        "capture of cycle {cycle} with the {side} value {other} of the start: {captured}"
    )
}

fn tern_text(value: Tern) -> &'static str
    ensures { result.now ≡ spec.tern_text value }
{
    match value {
        Tern::Zero => "0",
        Tern::One => "1",
        Tern::Unknown => "?",
    }
}

#[tactic(auto, unfolding(crate::specs::Lines::ternary_text))]
fn ternary_text(alloc: Global, cycle: usize, value: Tern) -> Result<String, AllocError>
    ensures { IfOk result (λ text. string_bytes text ≡ spec.ternary_text cycle value) }
{
    let value = tern_text(value);
    format!(in alloc; "capture of cycle {cycle} while the start settles: {value}")
}

/// Adds the line of the ternary capture, where there is one.
fn add_ternary(
    alloc: Global,
    cycle: usize,
    value: Option<Tern>,
    lines: &mut Seq<Name>,
) -> Result<(), AllocError>
    ensures { OnOk result (lines.new ≡ lines.old ++ spec.ternary_lines cycle value) }
{
    match value {
        Some(value) => add_text(lines, ternary_text(alloc, cycle, value)?),
        None => Ok(()),
    }
}

fn step_text(alloc: Global, name: &Name) -> Result<String, AllocError>
    ensures { IfOk result (λ text. string_bytes text ≡ spec.step_text name.now) }
{
    format!(in alloc; " {name}")
}

fn push_names(alloc: Global, text: &mut Vec<u8>, names: &[Name]) -> Result<(), AllocError>
    ensures { OnOk result (text.new.items ≡ text.old.items ++ flat_map spec.step_text names.now) }
{
    for name in names {
        let step = step_text(alloc, name)?;
        text.extend_from_slice(step.as_bytes())?;
    }
    Ok(())
}

#[tactic(auto, unfolding(crate::specs::Lines::path_text))]
fn path_text(alloc: Global, path: &Option<Seq<Name>>) -> Result<Name, AllocError>
    ensures { IfOk result (λ text. text ≡ spec.path_text path.now) }
{
    let Some(names) = path else {
        return Name::new(alloc, b"path none");
    };
    let mut text = Vec::from_slice(alloc, b"path")?;
    push_names(alloc, &mut text, names.as_slice())?;
    Ok(Name::from_vec(text))
}

/// Adds the capture of a cycle.
fn add_capture(
    alloc: Global,
    shown: &ShownRun,
    cycle: usize,
    lines: &mut Seq<Name>,
) -> Result<(), AllocError>
    ensures { OnOk result (lines.new ≡ lines.old ++ spec.capture_line shown.now cycle) }
{
    let bit = bit_at(&shown.captured, cycle);
    add_text(lines, capture_text(alloc, cycle, bit)?)
}

/// Adds the captures of the cycle before the judged one, but not on the early side, and of the judged one.
#[tactic(auto, unfolding(crate::specs::Lines::settled_lines))]
fn add_settled(alloc: Global, shown: &ShownRun, lines: &mut Seq<Name>) -> Result<(), AllocError>
    ensures { OnOk result (lines.new ≡ lines.old ++ spec.settled_lines shown.now) }
{
    if !shown.early {
        add_capture(alloc, shown, shown.judged.saturating_sub(1), lines)?;
    }
    add_capture(alloc, shown, shown.judged, lines)
}

/// Adds what of the judged cycle is late.
#[tactic(auto, unfolding(crate::specs::Lines::late_lines))]
fn add_late(
    alloc: Global,
    early: bool,
    cycle: usize,
    late: &Late,
    lines: &mut Seq<Name>,
) -> Result<(), AllocError>
    ensures { OnOk result (lines.new ≡ lines.old ++ spec.late_lines early cycle late.now) }
{
    add_text(lines, late_text(alloc, early, cycle, late)?)?;
    add_ternary(alloc, cycle, late.ternary, lines)?;
    lines.push(path_text(alloc, &late.path)?)?;
    Ok(())
}

/// Adds the captures of the judged cycle.
pub(crate) fn add_captures(
    alloc: Global,
    shown: &ShownRun,
    lines: &mut Seq<Name>,
) -> Result<(), AllocError>
    ensures { OnOk result (lines.new ≡ lines.old ++ spec.capture_lines shown.now) }
{
    add_settled(alloc, shown, lines)?;
    add_late(alloc, shown.early, shown.judged, &shown.late, lines)
}
