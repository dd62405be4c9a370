//! A mended text is read back.
ghost use Rattle.std.specs.Prelude.{◌≡◌, ◌↔◌, false, IsTrue, IfOk};
ghost use Rattle.selected_types.specs.declared.faults.ExpandFault.TheVariants.{Memory};
ghost use Rattle.linked_types.specs.Usable.{IsUsable};
ghost use Rattle.run_options.specs.Judging.{CanJudge};
ghost use Rattle.exception_expand.specs.Selections.{HasMultipliers};
ghost use Rattle.sdc_settings.specs.Settings.{AreSettings};
ghost use Rattle.design_stages.specs.Designs.{asked_clock};
ghost use Rattle.mended_text.specs.Claims.{claims_at};
ghost use Rattle.mended_text.specs.Mended.{SelectsClaims, SelectsThese, SelectsExactly};
ghost use Rattle.mended_text.specs.Scenes.{seen_scene};

use crate::claims::are_claims_at;
use crate::scenes::Scene;
use crate::settings::is_settings;
use design_stages::{Refusal, asked_clock, constraints};
use exception_expand::expand;
use mend_groups::Row;
use net_model::Claim;
use script_types::Script;
use sdc_settings::settings;
use sdcv_base::{Name, Seq};
use selected_types::ExpandFault;
use std::alloc::{AllocError, Global};

// A script that is refused is not the one that is meant, unless it is for want of memory.
fn refused(fault: &ExpandFault) -> Result<bool, AllocError>
    ensures { IfOk result (λ same. (same ≡ false) × (fault.now ≡ Memory → ⊥)) }
{
    match fault {
        ExpandFault::Memory => Err(AllocError),
        _ => Ok(false),
    }
}

// Whether the script has the same clock and the same fixed inputs, where this clock is asked for.
fn gives_settings(
    alloc: Global,
    script: &Script,
    scene: &Scene<'_>,
    clock: &Option<Name>,
) -> Result<bool, AllocError>
    ensures { IfOk result (λ same. IsTrue same ↔ AreSettings script.now scene.now.inputs.now scene.now.resets.now clock.now scene.now.settings.now) }
{
    match settings(alloc, script, scene.inputs, scene.resets, clock) {
        Ok(again) => Ok(is_settings(&again, scene.settings)),
        Err(fault) => refused(&fault),
    }
}

// Whether the script has the same clock and the same fixed inputs.
fn has_settings(alloc: Global, script: &Script, scene: &Scene<'_>) -> Result<bool, AllocError>
    ensures { IfOk result (λ same. IsTrue same
        ↔ AreSettings script.now scene.now.inputs.now scene.now.resets.now (asked_clock scene.now.forms.now.netlist) scene.now.settings.now) }
{
    let clock = asked_clock(alloc, &scene.forms.netlist)?;
    gives_settings(alloc, script, scene, &clock)
}

// Whether the script selects exactly the claims at the places of these pairs.
fn has_claims(
    alloc: Global,
    script: &Script,
    scene: &Scene<'_>,
    claims: &Seq<Claim>,
    rows: &[Row],
) -> Result<bool, AllocError>
    requires usable { IsUsable scene.now.linked.now }
    requires judging { CanJudge scene.now.judging }
    requires script { HasMultipliers script.now }
    ensures { IfOk result (λ same. IsTrue same ↔ SelectsClaims (seen_scene scene.now) (claims_at claims.now rows.now) script.now) }
{
    match expand(alloc, scene.linked, script, scene.judging) {
        Ok(again) => Ok(are_claims_at(again.claims.as_slice(), claims, rows)),
        Err(fault) => refused(&fault),
    }
}

fn selects_these(
    alloc: Global,
    script: &Script,
    scene: &Scene<'_>,
    claims: &Seq<Claim>,
    rows: &[Row],
) -> Result<bool, AllocError>
    requires usable { IsUsable scene.now.linked.now }
    requires judging { CanJudge scene.now.judging }
    requires script { HasMultipliers script.now }
    ensures { IfOk result (λ same. IsTrue same ↔ SelectsThese (seen_scene scene.now) (claims_at claims.now rows.now) script.now) }
{
    if !has_settings(alloc, script, scene)? {
        return Ok(false);
    }
    has_claims(alloc, script, scene, claims, rows)
}

/// Whether a text is a script of the same settings that selects exactly the claims at the places of these pairs.
pub(crate) fn selects_exactly(
    alloc: Global,
    text: &[u8],
    scene: &Scene<'_>,
    claims: &Seq<Claim>,
    rows: &[Row],
) -> Result<bool, AllocError>
    requires usable { IsUsable scene.now.linked.now }
    requires judging { CanJudge scene.now.judging }
    ensures { IfOk result (λ same. IsTrue same ↔ SelectsExactly (seen_scene scene.now) (claims_at claims.now rows.now) text.now) }
{
    match constraints(alloc, text, &scene.forms.script) {
        Ok(script) => selects_these(alloc, &script, scene, claims, rows),
        Err(Refusal::Line(_)) => Ok(false),
        Err(Refusal::Memory) => Err(AllocError),
    }
}
