//! The inputs that are 0 throughout a run.
ghost use Rattle.std.specs.Prelude.{◌≡◌, ◌++◌, IfOk, OnOk};
ghost use Rattle.shown_runs.specs.Rows as spec;

use crate::pieces::label_text;
use crate::rows::{input_cells, is_zero, name_of, plus};
use crate::runs::ShownRun;
use sdcv_base::{Name, Seq};
use std::alloc::{AllocError, Global};
use wave_signals::Signal;

/// Adds the name of a signal that is 0 throughout.
fn add_zero(
    alloc: Global,
    marks: &Seq<Seq<bool>>,
    cycles: usize,
    input: usize,
    signal: &Signal,
    names: &mut Seq<Name>,
) -> Result<(), AllocError>
    ensures { OnOk result (names.new ≡ names.old ++ spec.zero_name marks.now cycles input signal.now) }
{
    let cells = input_cells(alloc, marks, cycles, input, signal)?;
    if is_zero(cells.as_slice()) {
        names.push(name_of(label_text(alloc, signal)?))?;
    }
    Ok(())
}

fn zero_names(alloc: Global, shown: &ShownRun) -> Result<Seq<Name>, AllocError>
    ensures { IfOk result (λ names. names ≡ spec.zero_names shown.now) }
{
    let mut names = Seq::new(alloc);
    let mut input: usize = 0;
    for signal in shown.inputs.as_slice() {
        add_zero(
            alloc,
            &shown.dont_cares,
            shown.cycles,
            input,
            signal,
            &mut names,
        )?;
        input = plus(input, signal.values.len())?;
    }
    Ok(names)
}

fn zeros_text(alloc: Global, names: &[Name]) -> Result<Name, AllocError>
    ensures { IfOk result (λ text. text ≡ spec.zeros_text names.now) }
{
    let mut text = Vec::from_slice(alloc, b"0 throughout:")?;
    for name in names {
        text.push(b' ')?;
        text.extend_from_slice(name.as_bytes())?;
    }
    Ok(Name::from_vec(text))
}

fn add_names(alloc: Global, names: &[Name], lines: &mut Seq<Name>) -> Result<(), AllocError>
    ensures { OnOk result (lines.new ≡ lines.old ++ spec.zeros_among names.now) }
{
    if !names.is_empty() {
        lines.push(zeros_text(alloc, names)?)?;
    }
    Ok(())
}

/// Adds a line with the inputs that are 0 throughout, where there are any.
#[tactic(auto, unfolding(crate::specs::Rows::zero_lines))]
pub(crate) fn add_zeros(
    alloc: Global,
    shown: &ShownRun,
    lines: &mut Seq<Name>,
) -> Result<(), AllocError>
    ensures { OnOk result (lines.new ≡ lines.old ++ spec.zero_lines shown.now) }
{
    let names = zero_names(alloc, shown)?;
    add_names(alloc, names.as_slice(), lines)
}
