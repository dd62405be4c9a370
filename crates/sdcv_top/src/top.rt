//! The top call.
ghost use Rattle.std.specs.Prelude.{◌≡◌, map, string_bytes, Some};
ghost use Rattle.sdcv_words.specs.Commands.{seen_command};
ghost use Rattle.sdcv_words.specs.Ranges.{IsInRange};
ghost use Rattle.sdcv_top.specs.Runs.{HasRun, HasRunFor, RunCounts};

use crate::deliveries::{deliver, deliver_refusal, deliver_usage, refusal_of};
use crate::plans::Stop;
use crate::rans::Ran;
use crate::stages::plan;
use judgements::{Progress, Silent};
use run_ends::Status;
use sdcv_base::Host;
use sdcv_words::{Command, command_of};
use std::alloc::{AllocError, Global};

const USAGE: &[u8] =
    b"usage: sdcv verify V L S --out CERT | check V L S CERT | replay V L S REPORT PAIR | demo SEED SIZE | detect V L S --out SDC | aiger V L S PAIR --out FILE\n";

/// Runs the command that the words name. The words leave out the program's own name.
///
/// It reads the files that the words name, in their order, saves a file where the command has one, and then prints, one
/// call a line. A text that is refused gives one line, and so do words that name no command. Nothing is saved or printed
/// before all lines are made, so want of memory leaves nothing behind.
pub fn run<H: Host>(alloc: Global, words: &[String], host: &mut H) -> Ran
    ensures ran { HasRun (map string_bytes words.now) (H.files host.old)
        (record { asked = H.asked host.old; printed = H.printed host.old; saved = H.saved host.old })
        (record { asked = H.asked host.new; printed = H.printed host.new; saved = H.saved host.new }) result }
    ensures memory { result.status ≡ Status.Memory → (H.printed host.new ≡ H.printed host.old) × (H.saved host.new ≡ H.saved host.old) }
    ensures count { RunCounts (H.faults host.old) (H.faults host.new) result.status }
    ensures files { H.files host.new ≡ H.files host.old }
{
    run_told(alloc, words, host, &mut Silent)
}

/// The same. How many pairs are judged, `progress` is told meanwhile.
pub fn run_told<H: Host, P: Progress>(
    alloc: Global,
    words: &[String],
    host: &mut H,
    progress: &mut P,
) -> Ran
    ensures ran { HasRun (map string_bytes words.now) (H.files host.old)
        (record { asked = H.asked host.old; printed = H.printed host.old; saved = H.saved host.old })
        (record { asked = H.asked host.new; printed = H.printed host.new; saved = H.saved host.new }) result }
    ensures memory { result.status ≡ Status.Memory → (H.printed host.new ≡ H.printed host.old) × (H.saved host.new ≡ H.saved host.old) }
    ensures count { RunCounts (H.faults host.old) (H.faults host.new) result.status }
    ensures files { H.files host.new ≡ H.files host.old }
{
    match command_of(alloc, words) {
        Ok(Some(command)) => carried_out(alloc, host, command, progress),
        Ok(None) => deliver_usage(host, USAGE),
        Err(AllocError) => Ran::stopped(Status::Memory),
    }
}

// Saves and prints what is due for a command.
#[tactic(auto, unfolding(crate::specs::Plans::Plans))]
fn carried_out<H: Host, P: Progress>(
    alloc: Global,
    host: &mut H,
    command: Command<'_>,
    progress: &mut P,
) -> Ran
    requires { IsInRange (seen_command command) }
    ensures ran { HasRunFor (Some (seen_command command.entry)) (H.files host.old)
        (record { asked = H.asked host.old; printed = H.printed host.old; saved = H.saved host.old })
        (record { asked = H.asked host.new; printed = H.printed host.new; saved = H.saved host.new }) result }
    ensures memory { result.status ≡ Status.Memory → (H.printed host.new ≡ H.printed host.old) × (H.saved host.new ≡ H.saved host.old) }
    ensures count { RunCounts (H.faults host.old) (H.faults host.new) result.status }
    ensures files { H.files host.new ≡ H.files host.old }
{
    match plan(alloc, host, command, progress) {
        Ok(plan) => match refusal_of(alloc, &plan) {
            Ok(refused) => deliver(host, plan, refused),
            Err(AllocError) => Ran::stopped(Status::Memory),
        },
        Err(Stop::Refused(line)) => deliver_refusal(host, line),
        Err(Stop::HostFault) => Ran::stopped(Status::HostFault),
        Err(Stop::Memory) => Ran::stopped(Status::Memory),
    }
}
