//! A verification of generated texts.
ghost use Rattle.std.specs.Prelude.{◌≡◌, ◌≤◌, IfOk, [], Ok};
ghost use Rattle.sdcv_top.specs.Due.{Demonstrated, demo_reset};
ghost use Rattle.sdcv_top.specs.Plans.{IsPlanned};

use crate::plans::Plan;
use crate::verifying::{Verifying, verified};
use cell_types::builtin;
use design_stages::{ReadTexts, Refusal, constraints, designed, netlist};
use judgements::Progress;
use run_options::{Forms, Judging, NetlistForm, Reset, RunOptions, ScriptForm};
use sdcv_base::{Name, Seq, Setting};
use sdcv_gen::generate;
use std::alloc::{AllocError, Global};

/// The options of the runs of generated designs.
const OPTIONS: RunOptions = RunOptions {
    hazard: false,
    reset_len: 1,
    depth: 8,
    budget: 20_000,
    inv_depth: 1,
    lag: 0,
    hold: false,
    assist: None,
    free: None,
    assumed: None,
    strict: false,
};

/// How their claims are judged.
const JUDGING: Judging = Judging {
    hazard: false,
    lag: 0,
    hold: false,
    strict: false,
};

/// Judges the pairs of the design of a seed, of so many blocks.
pub fn demonstrated<'a, P: Progress>(
    alloc: Global,
    seed: u64,
    size: usize,
    progress: &mut P,
) -> Result<Plan<'a>, Refusal>
    ensures { IsPlanned (Demonstrated seed size) result }
{
    let texts = generate(alloc, seed, size)?;
    let source = netlist(alloc, &texts.verilog, &NetlistForm::Narrow)?;
    let script = constraints(alloc, &texts.sdc, &ScriptForm::Narrow)?;
    let library = builtin(alloc)?;
    let texts = ReadTexts {
        source,
        library,
        script,
        forms: Forms {
            netlist: NetlistForm::Narrow,
            script: ScriptForm::Narrow,
        },
    };
    let reset = demo_reset(alloc)?;
    let designed = designed(alloc, &texts, reset, JUDGING)?;
    let verifying = Verifying {
        options: OPTIONS,
        out: None,
        json: false,
    };
    let plan = verified(alloc, &designed, &verifying, &[], progress)?;
    Ok(plan)
}

// The reset port is 1 in the first cycle.
fn demo_reset(alloc: Global) -> Result<Reset, AllocError>
    ensures { IfOk result (λ reset. reset ≡ demo_reset) }
{
    let name = Name::new(alloc, b"rst")?;
    let ports = Seq::one(alloc, Setting { name, value: true })?;
    Ok(Reset { ports, len: 1 })
}
