//! The text of a run.
ghost use Rattle.std.specs.Prelude.{◌≡◌, ◌++◌, IfOk, OnOk};
ghost use Rattle.net_model.specs.Netlist.{IsSound};
ghost use Rattle.net_model.specs.Fits.{Fits};
ghost use Rattle.net_model.specs.Stimuli.{IsLawful};
ghost use Rattle.run_views.specs.Violations.{IsShowable};
ghost use Rattle.shown_runs.specs.Shows as spec;
ghost use Rattle.shown_runs.specs.Shows.{IsShowText};

use crate::captures::add_captures;
use crate::headings::{Heading, change_text, pair_text};
use crate::pieces::{add_text, joined};
use crate::rows::rows_of;
use crate::runs::{ShownRun, shown_run};
use crate::states::add_states;
use crate::tables::add_table;
use crate::zeros::add_zeros;
use linked_types::Linked;
use net_model::{Claim, Stimulus};
use run_views::Violation;
use sdcv_base::{Name, Seq};
use std::alloc::{AllocError, Global};

/// Adds the lines of the pair, and an empty one.
fn add_head(
    alloc: Global,
    heading: &Heading,
    shown: &ShownRun,
    lines: &mut Seq<Name>,
) -> Result<(), AllocError>
    ensures { OnOk result (lines.new ≡ lines.old ++ spec.head_lines heading.now shown.now) }
{
    add_text(lines, pair_text(alloc, heading)?)?;
    add_text(lines, change_text(alloc, shown)?)?;
    add_text(lines, String::new(alloc))
}

/// Adds the table, the line of the inputs that are 0 throughout, and an empty one.
fn add_rows(
    alloc: Global,
    heading: &Heading,
    shown: &ShownRun,
    lines: &mut Seq<Name>,
) -> Result<(), AllocError>
    ensures { OnOk result (lines.new ≡ lines.old ++ spec.table_lines heading.now shown.now) }
{
    let rows = rows_of(alloc, heading, shown)?;
    add_table(alloc, shown.cycles, rows.as_slice(), lines)?;
    add_zeros(alloc, shown, lines)?;
    add_text(lines, String::new(alloc))
}

fn lines_of(alloc: Global, heading: &Heading, shown: &ShownRun) -> Result<Seq<Name>, AllocError>
    ensures { IfOk result (λ lines. lines ≡ spec.show_lines heading.now shown.now) }
{
    let mut lines = Seq::new(alloc);
    add_head(alloc, heading, shown, &mut lines)?;
    add_rows(alloc, heading, shown, &mut lines)?;
    add_states(alloc, shown.regs.as_slice(), &mut lines)?;
    add_captures(alloc, shown, &mut lines)?;
    Ok(lines)
}

/// The text of the run of a stimulus that violates the claim of a pair: the pair, where its start changes and which capture is
/// judged; by cycles the inputs that are not 0 throughout, with an `x` for each don't-care, the start, the end where it is a register, and the captures; the
/// registers that are not 0 at first; the captures of the judged cycle and of the one before it, what would be captured with the
/// start's old value, and where hazards count while the start settles; and a path that carries that value, where one is told. Of a
/// claim of the early side the start's new value is tried, and the cycle before the judged one says nothing.
pub fn show(
    alloc: Global,
    heading: &Heading,
    linked: &Linked,
    claim: &Claim,
    stimulus: &Stimulus,
    violation: &Violation,
) -> Result<Vec<u8>, AllocError>
    requires sound { IsSound linked.now.design }
    requires fits { Fits linked.now.design claim.now }
    requires lawful { IsLawful linked.now.design stimulus.now }
    requires showable { IsShowable linked.now.design violation.now }
    ensures { IfOk result (λ text. IsShowText heading.now linked.now claim.now stimulus.now violation.now text.items) }
{
    let shown = shown_run(alloc, linked, claim, stimulus, violation)?;
    let lines = lines_of(alloc, heading, &shown)?;
    joined(alloc, lines.as_slice())
}
