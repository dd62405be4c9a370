//! Saves and prints what is due. Nothing that saves or prints takes memory.
ghost use Rattle.std.specs.Prelude.{◌≡◌, IfOk};
ghost use Rattle.sdcv_base.specs.Hosts.{Prints, Counts, grown};
ghost use Rattle.judgements.specs.Reports.{joined};
ghost use Rattle.sdcv_top.specs.Outcomes.{line_of, prints, refusal_of, refused};
ghost use Rattle.sdcv_top.specs.Plans.{saved_of, outcome_of, Delivers, Outputs};
ghost use Rattle.sdcv_top.specs.Runs.{RunCounts};

use crate::plans::{Plan, SavedFile};
use crate::rans::Ran;
use run_ends::{Ending, status_after};
use sdcv_base::{Host, HostFault, Name};
use std::alloc::{AllocError, Global};

// All lines as one text.
fn text_of(alloc: Global, lines: &[Vec<u8>]) -> Result<Vec<u8>, AllocError>
    ensures { IfOk result (λ text. text.items ≡ joined lines.now) }
{
    let mut text = Vec::new(alloc);
    for line in lines {
        text.extend_from_slice(line.as_slice())?;
    }
    Ok(text)
}

// A line without its newline.
fn line_of(line: Vec<u8>) -> Name
    ensures { result ≡ line_of line.items }
{
    let mut line = line;
    let _newline = line.pop();
    Name::from_vec(line)
}

/// The line that a plan refuses or rejects with.
pub fn refusal_of(alloc: Global, plan: &Plan<'_>) -> Result<Option<Name>, AllocError>
    ensures { IfOk result (λ line. line ≡ refusal_of (outcome_of plan.now)) }
{
    match plan.ending {
        Ending::Refused => Ok(Some(line_of(text_of(alloc, &plan.lines)?))),
        Ending::Rejected => Ok(Some(line_of(text_of(alloc, &plan.lines)?))),
        Ending::Done => Ok(None),
        Ending::Refuted => Ok(None),
        Ending::Undecided => Ok(None),
        Ending::Words => Ok(None),
        Ending::Holds => Ok(None),
    }
}

/// Saves the file of a plan, prints its lines, and hands its verdicts, its found pairs or the line of its refusal out.
pub fn deliver<H: Host>(host: &mut H, plan: Plan<'_>, refused: Option<Name>) -> Ran
    requires { refused ≡ refusal_of (outcome_of plan) }
    ensures delivered { Delivers (H.saved host.old) (H.saved host.new) (H.printed host.old) (H.printed host.new) (outcome_of plan.entry) result }
    ensures count { RunCounts (H.faults host.old) (H.faults host.new) result.status }
    ensures files { H.files host.new ≡ H.files host.old }
    ensures asked { H.asked host.new ≡ H.asked host.old }
{
    let Plan {
        ending,
        saved,
        lines,
        judged,
        detected,
    } = plan;
    let status = status_after(save_and_print(host, &saved, &lines), ending);
    Ran {
        status,
        judged,
        detected,
        refused,
    }
}

/// Prints the one line of a run that is refused, and hands it out.
pub fn deliver_refusal<H: Host>(host: &mut H, line: Vec<u8>) -> Ran
    ensures delivered { Delivers (H.saved host.old) (H.saved host.new) (H.printed host.old) (H.printed host.new) (refused line.items) result }
    ensures count { RunCounts (H.faults host.old) (H.faults host.new) result.status }
    ensures files { H.files host.new ≡ H.files host.old }
    ensures asked { H.asked host.new ≡ H.asked host.old }
    ensures saved { H.saved host.new ≡ H.saved host.old }
{
    let status = status_after(host.print(line.as_slice()), Ending::Refused);
    Ran {
        status,
        judged: None,
        detected: None,
        refused: Some(line_of(line)),
    }
}

/// Prints the one line of a run whose words name no command.
pub fn deliver_usage<H: Host>(host: &mut H, line: &[u8]) -> Ran
    ensures delivered { Delivers (H.saved host.old) (H.saved host.new) (H.printed host.old) (H.printed host.new) (prints Ending.Words line.now) result }
    ensures count { RunCounts (H.faults host.old) (H.faults host.new) result.status }
    ensures files { H.files host.new ≡ H.files host.old }
    ensures asked { H.asked host.new ≡ H.asked host.old }
    ensures saved { H.saved host.new ≡ H.saved host.old }
{
    let status = status_after(host.print(line), Ending::Words);
    Ran {
        status,
        judged: None,
        detected: None,
        refused: None,
    }
}

// Nothing is printed before the file is saved.
fn save_and_print<H: Host>(
    host: &mut H,
    saved: &Option<SavedFile<'_>>,
    lines: &[Vec<u8>],
) -> Result<(), HostFault>
    ensures out { Outputs (H.saved host.old) (H.saved host.new) (H.printed host.old) (H.printed host.new) (saved_of saved.entry.now) (joined lines.now) result }
    ensures count { Counts (H.faults host.old) (H.faults host.new) result }
    ensures files { H.files host.new ≡ H.files host.old }
    ensures asked { H.asked host.new ≡ H.asked host.old }
{
    if let Some(file) = saved {
        host.save(file.name, &file.bytes)?;
    }
    print_lines(host, lines)
}

// Prints the lines in order, one call a line.
fn print_lines<H: Host>(host: &mut H, lines: &[Vec<u8>]) -> Result<(), HostFault>
    ensures printed { Prints (H.printed host.old) (H.printed host.new) (joined lines.now) result }
    ensures count { Counts (H.faults host.old) (H.faults host.new) result }
    ensures files { H.files host.new ≡ H.files host.old }
    ensures asked { H.asked host.new ≡ H.asked host.old }
    ensures saved { H.saved host.new ≡ H.saved host.old }
{
    for line in lines {
        match host.print(line.as_slice()) {
            Ok(()) => {}
            Err(fault) => return Err(fault),
        }
    }
    Ok(())
}
