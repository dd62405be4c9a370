//! The call that finds all that a script selects.
ghost use Rattle.std.specs.Prelude.{IfOk, IfErr};
ghost use Rattle.linked_types.specs.Usable.{IsUsable};
ghost use Rattle.run_options.specs.Judging.{CanJudge};
ghost use Rattle.exception_expand.specs.Selections.{IsSelectionOf, HasMultipliers};
ghost use Rattle.exception_expand.specs.Causes.{IsExpandCause};

use crate::commands::all_selected;
use crate::judged::has_many_judged;
use crate::names::reg_cells;
use crate::points::Points;
use crate::tasks::Task;
use linked_types::Linked;
use run_options::Judging;
use script_types::Script;
use sdc_objects::{Scope, Tables};
use sdcv_base::LimitName;
use selected_types::{ExpandFault, Selected};
use std::alloc::Global;

/// The pairs that the exceptions of a script select in a linked design, each with its claim, and the exceptions with their
/// warnings. With hazards the claims allow no glitch either. Each false path is judged at as many captures more than the first
/// as the lag says, at most 8; a multicycle path has no lag. In a strict run lists mean what a timing analyser takes them for.
pub fn expand(
    alloc: Global,
    linked: &Linked,
    script: &Script,
    judging: Judging,
) -> Result<Selected, ExpandFault>
    requires linked { IsUsable linked.now }
    requires script { HasMultipliers script.now }
    requires judging { CanJudge judging }
    ensures ok { IfOk result (IsSelectionOf linked.now script.now judging) }
    ensures err { IfErr result (IsExpandCause linked.now script.now judging) }
{
    let tables = Tables::of(alloc, linked)?;
    let points = Points::of(alloc, linked)?;
    let cells = reg_cells(alloc, linked)?;
    let task = Task {
        scope: Scope {
            linked,
            script,
            tables: &tables,
            strict: judging.strict,
        },
        points: &points,
        cells: &cells,
        judging,
    };
    let selected = all_selected(alloc, &task)?;
    if has_many_judged(&linked.design, &selected.claims) {
        return Err(ExpandFault::Limit(LimitName::Judged, 10_001));
    }
    Ok(selected)
}
