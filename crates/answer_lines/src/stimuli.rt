//! The lines of a stimulus that is replayed for a pair.
ghost use Rattle.std.specs.Prelude.{◌≡◌, IfOk, Some};
ghost use Rattle.answer_lines.specs.Stimuli.{no_pair_line, replay_line, replayed_line, stimulus_line};

use std::alloc::{AllocError, Global};
use witness_replay::{Replay, ReplayFault, StimFault};

/// The line of a number that no pair has.
pub fn no_pair_line(alloc: Global, number: u64) -> Result<Vec<u8>, AllocError>
    ensures { IfOk result (λ line. line.items ≡ no_pair_line number) }
{
    Ok(format!(in alloc; "refused pair 1 NoPair {number}\n")?.into_bytes())
}

/// The line of a report in which no stimulus is read.
pub fn stimulus_line(alloc: Global, fault: &StimFault) -> Result<Vec<u8>, AllocError>
    ensures { IfOk result (λ line. stimulus_line fault.now ≡ Some line.items) }
{
    match fault {
        StimFault::NoBlock => Vec::from_slice(alloc, b"refused stimulus 1 NoBlock\n"),
        StimFault::Form(line) => {
            Ok(format!(in alloc; "refused stimulus 2 Form {line}\n")?.into_bytes())
        }
        StimFault::Memory => Err(AllocError),
    }
}

/// The line of a stimulus that stands for no run of the design.
pub fn replay_line(alloc: Global, fault: &ReplayFault) -> Result<Vec<u8>, AllocError>
    ensures { IfOk result (λ line. replay_line fault.now ≡ Some line.items) }
{
    match fault {
        ReplayFault::Shape => Vec::from_slice(alloc, b"refused replay 1 Shape\n"),
        ReplayFault::NotReset(cycle) => {
            Ok(format!(in alloc; "refused replay 2 NotReset {cycle}\n")?.into_bytes())
        }
        ReplayFault::Memory => Err(AllocError),
    }
}

/// The line of what the run of a stimulus does to the claim of the pair of that number.
pub fn replayed_line(alloc: Global, number: u64, answer: Replay) -> Result<Vec<u8>, AllocError>
    ensures { IfOk result (λ line. line.items ≡ replayed_line number answer) }
{
    let line = match answer {
        Replay::Violated(cycle) => format!(in alloc; "pair {number} violated at {cycle}\n")?,
        Replay::Holds => format!(in alloc; "pair {number} holds\n")?,
    };
    Ok(line.into_bytes())
}
