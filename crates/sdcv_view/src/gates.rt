//! What of a report stops a build.
use crate::commands::GateWords;
use crate::ends::{Answer, Ended, or_ended};
use crate::reads::bytes_of;
use sdcv_base::Host;
use std::alloc::Global;
use view_commands::{Day, Gated, NamedText, gate, gate_with, today_of};

// What of a report stops a build.
fn gate_of<H: Host>(alloc: Global, host: &mut H, name: &str) -> Result<Gated, Ended> {
    let report = bytes_of(alloc, host, name)?;
    or_ended(gate(alloc, name, &report))
}

// What of a report stops a build beside what the list in the file of that name accepts today.
fn open_gate_of<H: Host>(
    alloc: Global,
    host: &mut H,
    name: &str,
    accepted: &str,
    today: Option<Day>,
) -> Result<Gated, Ended> {
    let report = bytes_of(alloc, host, name)?;
    let list = bytes_of(alloc, host, accepted)?;
    let report = NamedText {
        name,
        text: &report,
    };
    let list = NamedText {
        name: accepted,
        text: &list,
    };
    or_ended(gate_with(alloc, &report, &list, today))
}

fn any_gate_of<H: Host>(
    alloc: Global,
    host: &mut H,
    words: &GateWords<'_>,
) -> Result<Gated, Ended> {
    let today = or_ended(today_of(words.today))?;
    match words.accepted {
        None => gate_of(alloc, host, words.report),
        Some(accepted) => open_gate_of(alloc, host, words.report, accepted, today),
    }
}

/// Prints what stops a build; the status is 0 where nothing does, and else 1. What is remarked of the list is left to be told.
pub fn gate_answer<H: Host>(
    alloc: Global,
    host: &mut H,
    words: &GateWords<'_>,
) -> Result<Answer, Ended> {
    let gate = any_gate_of(alloc, host, words)?;
    host.print(&gate.text)?;
    let Gated {
        status,
        remarks,
        ..
    } = gate;
    Ok(Answer { status, remarks })
}
