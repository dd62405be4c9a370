//! The pairs that are tried.
ghost use Rattle.std.specs.Prelude.{◌≡◌, IfOk, IfErr, OnOk};
ghost use Rattle.linked_types.specs.Usable.{IsUsable};
ghost use Rattle.run_options.specs.Judging.{judging_by};
ghost use Rattle.exception_expand.specs.Selections.{IsSelectionOf};
ghost use Rattle.mcp_detect.specs.Scripts as spec;
ghost use Rattle.mcp_detect.specs.Causes.{IsDetectCause, HasFewPairs};
ghost use Rattle.mcp_detect.specs.Causes as causes;

use crate::faults::DetectFault;
use crate::scripts::registers_script;
use exception_expand::expand;
use linked_types::Linked;
use run_options::Judging;
use sdcv_base::LimitName;
use selected_types::{ExpandFault, Selected};
use std::alloc::Global;

/// The pairs of registers between which a path leads, each with its claim of multiplier 2.
pub(crate) fn selected(
    alloc: Global,
    linked: &Linked,
    hazard: bool,
) -> Result<Selected, DetectFault>
    requires { IsUsable linked.now }
    ensures ok { IfOk result (IsSelectionOf linked.now spec.registers_script (judging_by hazard 0)) }
    ensures err { IfErr result (IsDetectCause linked.now) }
    ensures none { OnOk result (HasFewPairs linked.now) }
{
    let script = registers_script(alloc)?;
    let judging = Judging {
        hazard,
        lag: 0,
        hold: false,
        strict: false,
    };
    match expand(alloc, linked, &script, judging) {
        Ok(selected) => Ok(selected),
        Err(fault) => Err(fault_of(fault)),
    }
}

fn fault_of(fault: ExpandFault) -> DetectFault
    ensures { result ≡ causes.fault_of fault }
{
    match fault {
        ExpandFault::Memory => DetectFault::Memory,
        _ => DetectFault::Limit(LimitName::Pairs, 10_001),
    }
}
