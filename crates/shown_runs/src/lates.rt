//! What is late in a cycle.
ghost use Rattle.std.specs.Prelude.{IfOk};
ghost use Rattle.net_model.specs.Netlist.{IsSound};
ghost use Rattle.net_model.specs.Fits.{Fits};
ghost use Rattle.net_model.specs.Cycles.{IsSettled};
ghost use Rattle.net_model.specs.Layers.{IsLateCapture};
ghost use Rattle.shown_runs.specs.Lates.{IsLateIn, IsTernaryIf};

use crate::named_paths::named_path;
use linked_types::Linked;
use net_model::{Claim, Cycle, Design, Tern};
use net_sim::{Layers, layer_capture};
use sdcv_base::{Name, Seq};
use std::alloc::{AllocError, Global};
use ternary_sim::{Layers3, capture3};

/// The start's bit on the other side of its change, and what the end captures where the start has that one; where hazards
/// count, what the end captures while the start settles; and the nets of a path that carries that bit, where one is told.
#[derive(Drop)]
pub struct Late {
    pub other: bool,
    pub captured: bool,
    pub ternary: Option<Tern>,
    pub path: Option<Seq<Name>>,
}

fn late_capture(
    alloc: Global,
    design: &Design,
    claim: &Claim,
    cycle: &Cycle,
    stale: bool,
) -> Result<bool, AllocError>
    requires sound { IsSound design.now }
    requires fits { Fits design.now claim.now }
    requires settled { IsSettled design.now cycle.now }
    ensures { IfOk result (IsLateCapture design.now claim.now cycle.now stale) }
{
    let mut layers = Layers::new(alloc, design)?;
    Ok(layer_capture(design, claim, cycle, stale, &mut layers))
}

/// The ternary capture, where hazards count.
fn ternary_capture(
    alloc: Global,
    design: &Design,
    claim: &Claim,
    cycle: &Cycle,
) -> Result<Option<Tern>, AllocError>
    requires sound { IsSound design.now }
    requires fits { Fits design.now claim.now }
    requires settled { IsSettled design.now cycle.now }
    ensures { IfOk result (IsTernaryIf claim.now.hazard design.now claim.now cycle.now) }
{
    if !claim.hazard {
        return Ok(None);
    }
    let mut layers = Layers3::new(alloc, design)?;
    Ok(Some(capture3(design, claim, cycle, &mut layers)))
}

/// What is late in a settled cycle, given a cycle with the start's bit on the other side of its change.
pub(crate) fn late_of(
    alloc: Global,
    linked: &Linked,
    claim: &Claim,
    across: &Cycle,
    cycle: &Cycle,
) -> Result<Late, AllocError>
    requires sound { IsSound linked.now.design }
    requires fits { Fits linked.now.design claim.now }
    requires across { IsSettled linked.now.design across.now }
    requires settled { IsSettled linked.now.design cycle.now }
    ensures { IfOk result (IsLateIn linked.now claim.now across.now cycle.now) }
{
    let design = &linked.design;
    let other = across.start_bit(design, &claim.start);
    Ok(Late {
        other,
        captured: late_capture(alloc, design, claim, cycle, other)?,
        ternary: ternary_capture(alloc, design, claim, cycle)?,
        path: named_path(alloc, linked, claim, cycle, other)?,
    })
}
