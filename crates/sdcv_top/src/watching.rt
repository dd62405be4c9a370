//! The graph that watches the claim of a pair.
ghost use Rattle.std.specs.Prelude.{◌≡◌, Bool, false, All, IfOk};
ghost use Rattle.net_model.specs.declared.claims.Claim.{Claim as TheClaim};
ghost use Rattle.linked_types.specs.declared.names.Linked.{Linked as TheLinked};
ghost use Rattle.claim_monitor.specs.AigerTexts.{IsAigerOf};
ghost use Rattle.design_stages.specs.Designs.{CanBeJudged};
ghost use Rattle.sdcv_top.specs.Jobs.{Watched};
ghost use Rattle.sdcv_top.specs.Monitors.{IsWatchedOut, symbols_if};
ghost use Rattle.sdcv_top.specs.Plans.{IsPlanned, outcome_of};

use crate::plans::{Plan, SavedFile};
use crate::replaying::numbered;
use answer_lines::{GraphCounts, aiger_line, no_pair_line};
use claim_monitor::{AigerText, write_aiger};
use design_stages::{Designed, Refusal};
use linked_types::Linked;
use monitor_symbols::symbols_text;
use net_model::Claim;
use run_ends::Ending;
use std::alloc::{AllocError, Global};

/// Where a graph is saved, the number of its pair, and how many nets are free behind what is cut out.
#[derive(Clone, Copy)]
struct Asked<'a> {
    out: &'a str,
    number: u64,
    free: Option<u64>,
}

/// Watches the claim of a pair: the text of the graph is to be saved, with symbols where they are asked for, and its counts are to
/// be told.
pub fn watched<'a>(
    alloc: Global,
    designed: &Designed,
    out: &'a str,
    number: u64,
    symbols: bool,
) -> Result<Plan<'a>, Refusal>
    requires judged { CanBeJudged designed.now }
    requires plain { All (λ claim. claim.hazard ≡ false) designed.now.selected.claims }
    ensures { IsPlanned (Watched out.entry.now number symbols designed.now) result }
{
    let claims = designed.selected.claims.as_slice();
    let Some(claim) = numbered(claims, number) else {
        return Err(Refusal::Line(no_pair_line(alloc, number)?));
    };
    let text = write_aiger(alloc, &designed.linked.design, claim)?;
    let symbols = symbols_if(alloc, symbols, &designed.linked, claim)?;
    let asked = Asked {
        out,
        number,
        free: designed.free,
    };
    let plan = plan(alloc, asked, text, symbols)?;
    Ok(plan)
}

// The symbols of the latches, where they are asked for.
fn symbols_if(
    alloc: Global,
    symbols: bool,
    linked: &Linked,
    claim: &Claim,
) -> Result<Vec<u8>, AllocError>
    ensures { IfOk result (λ lines. lines.items ≡ symbols_if symbols linked.now claim.now) }
{
    if symbols {
        symbols_text(alloc, &linked.names, &linked.design, claim)
    } else {
        Ok(Vec::new(alloc))
    }
}

// The text is saved with the symbols after it, and its counts are told.
fn plan<'a>(
    alloc: Global,
    asked: Asked<'a>,
    text: AigerText,
    symbols: Vec<u8>,
) -> Result<Plan<'a>, AllocError>
    ensures { IfOk result (λ plan. (with_symbols : Bool) (l : TheLinked) (claim : TheClaim) → IsAigerOf l.design claim text
        → symbols.items ≡ symbols_if with_symbols l claim
        → IsWatchedOut asked.entry.out.now asked.entry.number with_symbols asked.entry.free l claim (outcome_of plan)) }
{
    let Asked { out, number, free } = asked;
    let counts = GraphCounts {
        inputs: text.inputs,
        latches: text.latches,
        gates: text.gates,
    };
    let line = aiger_line(alloc, number, counts, free)?;
    let told = Plan::printing_one(alloc, Ending::Done, line)?;
    let mut bytes = text.bytes;
    bytes.extend_from_slice(&symbols)?;
    Ok(Plan {
        saved: Some(SavedFile { name: out, bytes }),
        ..told
    })
}
