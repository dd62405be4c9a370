//! The options of a run over texts, judged.
ghost use Rattle.std.specs.Prelude.{◌≡◌, IfOk, Some, map};
ghost use Rattle.std.specs.Option.{option_map};
ghost use Rattle.clap_words.specs.Readings.{seen_given};
ghost use Rattle.sdcv_words.specs.Options.{form_of, judging_of, lag_of, netlist_of, options_of, proving_of, resets_of};

use crate::commands::Options;
use crate::cuttings::netlist_by;
use crate::givens::{stands, text_of};
use crate::numbers::number_or;
use crate::settings::settings_of;
use crate::skips::skips_of;
use clap_words::Given;
use run_options::{Forms, Judging, NetlistForm, Proving, Reset, ScriptForm};
use sdcv_base::{Seq, Setting};
use std::alloc::{AllocError, Global};

fn resets_of(alloc: Global, list: Option<&str>) -> Result<Option<Seq<Setting>>, AllocError>
    ensures { IfOk result (λ found. found ≡ resets_of (option_map (λ t. t.now) list.entry)) }
{
    match list {
        Some(text) => settings_of(alloc, text),
        None => Ok(Some(Seq::new(alloc))),
    }
}

// At how many captures more than the first a false path is judged.
fn lag_of(given: &[Given<'_>]) -> Option<u8>
    ensures { result ≡ lag_of (map seen_given given.now) }
{
    let lag = number_or(text_of(given, "lag"), 0, 0, 8)?;
    Some(lag as u8)
}

// How claims are judged, by the flags that stand.
fn judging_of(given: &[Given<'_>], lag: u8) -> Judging
    ensures { result ≡ judging_of (map seen_given given.now) lag }
{
    Judging {
        hazard: stands(given, "hazard"),
        lag,
        hold: stands(given, "hold"),
        strict: stands(given, "strict"),
    }
}

// How the netlist is read: wide where a list of patterns, or the name of a clock or a top module stands.
fn netlist_of(alloc: Global, given: &[Given<'_>]) -> Result<Option<NetlistForm>, AllocError>
    ensures { IfOk result (λ found. found ≡ netlist_of (map seen_given given.now)) }
{
    netlist_by(
        alloc,
        text_of(given, "free"),
        text_of(given, "clock"),
        text_of(given, "top"),
    )
}

// How the constraints are read: wide where a list of names or the word for a sign-off stands.
fn form_of(alloc: Global, given: &[Given<'_>]) -> Result<Option<ScriptForm>, AllocError>
    ensures { IfOk result (λ found. found ≡ form_of (map seen_given given.now)) }
{
    match text_of(given, "skip") {
        Some(list) => Ok(skips_of(alloc, list)?.map(ScriptForm::Wide)),
        None if stands(given, "strict") => Ok(Some(ScriptForm::Wide(Seq::new(alloc)))),
        None => Ok(Some(ScriptForm::Narrow)),
    }
}

/// The options of a run, if their texts keep the rules.
pub fn options_of(alloc: Global, given: &[Given<'_>]) -> Result<Option<Options>, AllocError>
    ensures { IfOk result (λ found. found ≡ options_of (map seen_given given.now)) }
{
    let list = text_of(given, "reset");
    let default = if list.is_some() { 1 } else { 0 };
    let Some(cycles) = number_or(text_of(given, "reset-cycles"), default, 0, 64) else {
        return Ok(None);
    };
    let Some(lag) = lag_of(given) else {
        return Ok(None);
    };
    let Some(resets) = resets_of(alloc, list)? else {
        return Ok(None);
    };
    let Some(netlist) = netlist_of(alloc, given)? else {
        return Ok(None);
    };
    let Some(form) = form_of(alloc, given)? else {
        return Ok(None);
    };
    let judging = judging_of(given, lag);
    let reset = Reset {
        ports: resets,
        len: cycles as usize,
    };
    Ok(Some(Options {
        judging,
        forms: Forms {
            netlist,
            script: form,
        },
        reset,
    }))
}

/// How far proofs are sought, if the numbers lie in their ranges.
pub fn proving_of(given: &[Given<'_>]) -> Option<Proving>
    ensures { result ≡ proving_of (map seen_given given.now) }
{
    let depth = number_or(text_of(given, "depth"), 8, 0, 64)?;
    let budget = number_or(text_of(given, "budget"), 20_000, 1, 10_000_000)?;
    let inv_depth = number_or(text_of(given, "inv-depth"), 1, 0, 8)?;
    Some(Proving {
        depth: depth as usize,
        budget,
        inv_depth: inv_depth as usize,
    })
}
