//! Waves of runs.
ghost use Rattle.std.specs.Prelude.{◌≡◌, ◌<◌, length, IfOk};
ghost use Rattle.run_waves.specs.RunWaves as spec;

use linked_types::{Linked, PortName};
use named_runs::run_signals;
use run_views::Violation;
use sdcv_base::{Name, Seq};
use std::alloc::{AllocError, Global};
use vcd_text::{Wave, mark, vcd_text};
use wave_signals::Signal;

/// The clock's name; a drawn clock has one even where the design has none.
fn clock_name(alloc: Global, clock: &Option<PortName>) -> Result<Name, AllocError>
    ensures { IfOk result (λ name. name ≡ spec.clock_name clock.now) }
{
    match clock {
        Some(port) => port.name.copy(alloc),
        None => Name::new(alloc, b"clock"),
    }
}

/// The marks of the toggle and of the judged cycle.
fn marks(alloc: Global, violation: &Violation) -> Result<Seq<Signal>, AllocError>
    requires toggle { violation.now.toggle < length violation.now.run }
    requires judged { violation.now.judged < length violation.now.run }
    ensures { IfOk result (λ list. list ≡ spec.marks violation.now) }
{
    let cycles = violation.run.len();
    let mut list = Seq::one(alloc, mark(alloc, b"toggled", violation.toggle, cycles)?)?;
    list.push(mark(alloc, b"judged", violation.judged, cycles)?)?;
    Ok(list)
}

/// The wave of a run that violates a claim, as a value change dump: below the name of the top module all full names of nets and
/// all registers, beside it the clock, and a mark that is 1 in the cycle of the toggle and one that is 1 in the judged cycle.
/// `AllocError` comes also where a time is not below 2^64.
pub fn wave(
    alloc: Global,
    top: &Name,
    linked: &Linked,
    violation: &Violation,
) -> Result<Vec<u8>, AllocError>
    requires toggle { violation.now.toggle < length violation.now.run }
    requires judged { violation.now.judged < length violation.now.run }
    ensures { IfOk result (λ text. spec.IsWave top.now linked.now violation.now text.items) }
{
    let signals = run_signals(alloc, linked, violation.run.as_slice())?;
    let shown = Wave {
        clock: clock_name(alloc, &linked.names.clock)?,
        top: top.copy(alloc)?,
        marks: marks(alloc, violation)?,
        signals: Seq::from_vec(signals),
        cycles: violation.run.len(),
    };
    vcd_text(alloc, &shown)
}
