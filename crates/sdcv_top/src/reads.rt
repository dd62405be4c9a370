//! Reads of the texts.
ghost use Rattle.std.specs.Prelude.{◌≡◌};
ghost use Rattle.sdcv_top.specs.Plans.{StopCounts, AnswersRead};

use crate::plans::Stop;
use sdcv_base::{Host, ReadFault};
use std::alloc::Global;

/// The most bytes that a netlist or constraints may have.
pub const LONGEST: usize = 67_108_864;

/// What a read answered.
#[derive(Drop)]
pub enum Answer {
    Text(Vec<u8>),
    Longer,
}

/// Reads a file of at most `limit` bytes.
pub fn read<H: Host>(alloc: Global, host: &mut H, name: &str, limit: usize) -> Result<Answer, Stop>
    ensures read { AnswersRead (record { name = name.now; limit = limit }) (H.files host.old) (H.asked host.old) (H.asked host.new) result }
    ensures count { StopCounts (H.faults host.old) (H.faults host.new) result }
    ensures files { H.files host.new ≡ H.files host.old }
    ensures printed { H.printed host.new ≡ H.printed host.old }
    ensures saved { H.saved host.new ≡ H.saved host.old }
{
    match host.read_file(alloc, name, limit) {
        Ok(text) => Ok(Answer::Text(text)),
        Err(ReadFault::TooLong) => Ok(Answer::Longer),
        Err(ReadFault::Failed) => Err(Stop::HostFault),
        Err(ReadFault::Memory) => Err(Stop::Memory),
    }
}
