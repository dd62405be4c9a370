//! How a run ends, and why it has no answer.
use design_stages::Refusal;
use sdcv_base::{HostFault, Seq};
use std::alloc::{AllocError, Global};
use view_commands::Stop;

/// How a run ends that has an answer: with a status, and with lines that are told beside the answer.
#[derive(Drop)]
pub struct Answer {
    pub status: u8,
    pub remarks: Seq<String>,
}

/// The end of a run that tells nothing beside its answer.
pub fn quiet(alloc: Global, status: Result<u8, Ended>) -> Result<Answer, Ended> {
    Ok(Answer {
        status: status?,
        remarks: Seq::new(alloc),
    })
}

/// Why a run has no answer.
#[derive(Drop)]
pub enum Ended {
    /// There is nothing to print or to save.
    Stopped(Stop),
    /// The host failed, which it told.
    Host,
}

/// What was made, or why the run has no answer.
pub fn or_ended<T>(made: Result<T, Stop>) -> Result<T, Ended> {
    match made {
        Ok(made) => Ok(made),
        Err(stop) => Err(Ended::Stopped(stop)),
    }
}

impl From<Stop> for Ended {
    fn from(stop: Stop) -> Ended {
        Ended::Stopped(stop)
    }
}

impl From<Refusal> for Ended {
    fn from(refusal: Refusal) -> Ended {
        Ended::Stopped(Stop::from(refusal))
    }
}

impl From<AllocError> for Ended {
    fn from(_: AllocError) -> Ended {
        Ended::Stopped(Stop::Memory)
    }
}

impl From<HostFault> for Ended {
    fn from(_: HostFault) -> Ended {
        Ended::Host
    }
}
