//! A search for the multicycle pairs of a netlist.
ghost use Rattle.std.specs.Prelude.{◌≡◌, IfOk, Some};
ghost use Rattle.linked_types.specs.Usable.{IsUsable};
ghost use Rattle.sdcv_words.specs.Commands.{seen_texts, seen_finding, Detect};
ghost use Rattle.sdcv_words.specs.Ranges.{AreOptionsInRange, IsFindingInRange};
ghost use Rattle.mcp_detect.specs.Options.{AreInRange};
ghost use Rattle.mcp_detect.specs.Detections.{AreDetected};
ghost use Rattle.found_pairs.specs.Tellings.{detect_line};
ghost use Rattle.design_stages.specs.Stages.{Finds, Staged};
ghost use Rattle.sdcv_top.specs.Due.{FindsPairs};
ghost use Rattle.sdcv_top.specs.Found.{Detects, IsFoundOut};
ghost use Rattle.sdcv_top.specs.Reads.{reads_of};
ghost use Rattle.sdcv_top.specs.Plans.{StopCounts, Plans, outcome_of};

use crate::plans::{Plan, SavedFile, Stop};
use crate::readers::texts;
use design_stages::{Refusal, free_count, linked, told_alone};
use found_pairs::{detect_line, detected_lines, found_is_selected, found_text};
use judgements::Progress;
use linked_types::Linked;
use mcp_detect::{DetectOptions, Detected, detect};
use run_ends::Ending;
use sdcv_base::Host;
use sdcv_words::{Finding, Options, Texts};
use selected_types::Notices;
use std::alloc::{AllocError, Global};

/// How pairs are tried, for how many cycles reset is held, how many nets are free behind what is cut out, and what is told of netlist
/// and constraints.
#[derive(Drop)]
pub struct Manner {
    pub options: DetectOptions,
    pub reset_len: usize,
    pub free: Option<u64>,
    pub notices: Notices,
}

/// The texts are read, the netlist is linked, and what is found of its pairs is to be saved and told.
pub fn found_out<'a, H: Host, P: Progress>(
    alloc: Global,
    host: &mut H,
    files: Texts<'a>,
    options: Options,
    finding: Finding<'a>,
    progress: &mut P,
) -> Result<Plan<'a>, Stop>
    requires options { AreOptionsInRange options }
    requires finding { IsFindingInRange (seen_finding finding) }
    ensures planned { Plans (FindsPairs (seen_texts files.entry) options (seen_finding finding.entry))
        (reads_of (Some (Detect (seen_texts files.entry) options (seen_finding finding.entry))))
        (H.files host.old) (H.asked host.old) (H.asked host.new) result }
    ensures count { StopCounts (H.faults host.old) (H.faults host.new) result }
    ensures files { H.files host.new ≡ H.files host.old }
    ensures printed { H.printed host.new ≡ H.printed host.old }
    ensures saved { H.saved host.new ≡ H.saved host.old }
{
    let trying = DetectOptions {
        hazard: options.judging.hazard,
        depth: finding.proving.depth,
        budget: finding.proving.budget,
        inv_depth: finding.proving.inv_depth,
        bound: finding.bound,
    };
    let Options { forms, reset, .. } = options;
    let texts = texts(alloc, host, files, forms)?;
    let reset_len = reset.len;
    let linked = linked(alloc, &texts, reset)?;
    let detected = detected(alloc, &linked, &trying, progress)?;
    let notices = told_alone(alloc, &texts, &linked.names)?;
    let manner = Manner {
        options: trying,
        reset_len,
        free: free_count(&texts.forms.netlist, &linked.names),
        notices,
    };
    let plan = told(alloc, &linked, &manner, finding, detected)?;
    Ok(plan)
}

// What is found out about the pairs.
fn detected<P: Progress>(
    alloc: Global,
    linked: &Linked,
    options: &DetectOptions,
    progress: &mut P,
) -> Result<Detected, Refusal>
    requires linked { IsUsable linked.now }
    requires range { AreInRange options.now }
    ensures { Finds (Staged (Detects linked.now options.now) detect_line) result }
{
    match detect(alloc, linked, options, progress) {
        Ok(detected) => Ok(detected),
        Err(fault) => Err(Refusal::Line(detect_line(alloc, &fault)?)),
    }
}

// The found pairs as SDC, and the lines that tell them.
fn told<'a>(
    alloc: Global,
    linked: &Linked,
    manner: &Manner,
    finding: Finding<'a>,
    detected: Detected,
) -> Result<Plan<'a>, AllocError>
    requires linked { IsUsable linked.now }
    requires range { AreInRange manner.now.options }
    requires found { AreDetected linked.now manner.now.options detected }
    ensures { IfOk result (λ plan. IsFoundOut finding.entry.out.now finding.entry.hold manner.now.options manner.now.reset_len manner.now.free manner.now.notices
        linked.now detected (outcome_of plan)) }
{
    let Manner {
        options,
        reset_len,
        free,
        notices,
    } = manner;
    found_is_selected(linked, options, &detected, finding.hold);
    let bytes = found_text(alloc, &detected, finding.hold)?;
    let lines = detected_lines(alloc, options, *reset_len, *free, notices, &detected)?;
    Ok(Plan {
        ending: Ending::Done,
        saved: Some(SavedFile {
            name: finding.out,
            bytes,
        }),
        lines,
        judged: None,
        detected: Some(detected),
    })
}
