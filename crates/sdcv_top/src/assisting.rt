//! A verification that tries the clauses of an assisting text.
ghost use Rattle.std.specs.Prelude.{◌≡◌, ◌∷◌, [], All, IfOk};
ghost use Rattle.std.specs.Option.{option_map};
ghost use Rattle.net_model.specs.Fits.{NamesRegs};
ghost use Rattle.linked_types.specs.Usable.{IsUsable};
ghost use Rattle.verdict_types.specs.Forms.{IsKeptClause};
ghost use Rattle.design_stages.specs.Designs.{CanBeJudged};
ghost use Rattle.design_stages.specs.Stages.{Finds};
ghost use Rattle.sdcv_top.specs.Headline.{AreInRange};
ghost use Rattle.sdcv_top.specs.Jobs.{Assisted};
ghost use Rattle.sdcv_top.specs.Reads.{text_of};
ghost use Rattle.sdcv_top.specs.Texts.{AssistText, Assists, HasClauses};
ghost use Rattle.sdcv_top.specs.Plans.{Plans, ReadFinds, StopCounts};

use crate::plans::{Plan, Stop};
use crate::readers::text;
use crate::reads::LONGEST;
use crate::verifying::{Verifying, verified};
use assist_text::{assist_clauses, read_assist};
use assist_types::AssistFault;
use design_stages::{Designed, Refusal};
use fault_lines::{Origin, assist_line};
use judgements::Progress;
use linked_types::Linked;
use net_model::InvClause;
use run_options::RunOptions;
use sdcv_base::{Host, Seq};
use std::alloc::Global;

/// Reads an assisting text, and judges all selected pairs with its clauses among those that are tried. The report tells how many
/// there are.
pub fn assisted<'a, H: Host, P: Progress>(
    alloc: Global,
    host: &mut H,
    designed: &Designed,
    file: &str,
    verifying: Verifying<'a>,
    progress: &mut P,
) -> Result<Plan<'a>, Stop>
    requires judged { CanBeJudged designed.now }
    requires options { AreInRange verifying.options }
    ensures planned { Plans (Assisted (option_map (λ t. t.now) verifying.entry.out) verifying.entry.json verifying.entry.options designed.now)
        (text_of file.now ∷ []) (H.files host.old) (H.asked host.old) (H.asked host.new) result }
    ensures count { StopCounts (H.faults host.old) (H.faults host.new) result }
    ensures files { H.files host.new ≡ H.files host.old }
    ensures printed { H.printed host.new ≡ H.printed host.old }
    ensures saved { H.saved host.new ≡ H.saved host.old }
{
    let extra = clauses(alloc, host, &designed.linked, file)?;
    let options = RunOptions {
        assist: Some(extra.len() as u64),
        ..verifying.options
    };
    let verifying = Verifying {
        options,
        ..verifying
    };
    let plan = verified(alloc, designed, &verifying, extra.as_slice(), progress)?;
    Ok(plan)
}

/// Reads the clauses of an assisting text.
pub fn clauses<H: Host>(
    alloc: Global,
    host: &mut H,
    linked: &Linked,
    file: &str,
) -> Result<Seq<InvClause>, Stop>
    requires { IsUsable linked.now }
    ensures found { ReadFinds (AssistText linked.now.names) (text_of file.now) (H.files host.old) (H.asked host.old) (H.asked host.new) result }
    ensures names { IfOk result (All (NamesRegs linked.now.design)) }
    ensures in_form { IfOk result (All IsKeptClause) }
    ensures count { StopCounts (H.faults host.old) (H.faults host.new) result }
    ensures files { H.files host.new ≡ H.files host.old }
    ensures printed { H.printed host.new ≡ H.printed host.old }
    ensures saved { H.saved host.new ≡ H.saved host.old }
{
    let text = text(alloc, host, file, LONGEST, Origin::Assist)?;
    let clauses = told_clauses(alloc, linked, &text)?;
    Ok(clauses)
}

// The clauses of an assisting text, or the line of its fault.
fn told_clauses(alloc: Global, linked: &Linked, text: &[u8]) -> Result<Seq<InvClause>, Refusal>
    requires { IsUsable linked.now }
    ensures found { Finds (Assists linked.now.names text.now) result }
    ensures names { IfOk result (All (NamesRegs linked.now.design)) }
    ensures in_form { IfOk result (All IsKeptClause) }
{
    match clauses_of(alloc, linked, text) {
        Ok(clauses) => Ok(clauses),
        Err(fault) => Err(Refusal::Line(assist_line(alloc, &fault)?)),
    }
}

// The clauses of an assisting text over the registers of a design.
fn clauses_of(alloc: Global, linked: &Linked, text: &[u8]) -> Result<Seq<InvClause>, AssistFault>
    requires { IsUsable linked.now }
    ensures found { HasClauses linked.now.names text.now result }
    ensures names { IfOk result (All (NamesRegs linked.now.design)) }
    ensures in_form { IfOk result (All IsKeptClause) }
{
    let assist = read_assist(alloc, text)?;
    let clauses = assist_clauses(alloc, &linked.names, &assist)?;
    Ok(clauses)
}
