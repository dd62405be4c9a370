//! How a run ends, and the number that the program ends with.
ghost use Rattle.std.specs.Prelude.{◌≡◌};
ghost use Rattle.run_ends.specs.Statuses.{code_of, status_of, status_after};

use sdcv_base::HostFault;

/// How a run ended.
#[derive(Clone, Copy, Debug, PartialEq, Eq)]
pub enum Status {
    /// Every selected pair is justified, or no pair is selected.
    Done,
    /// Some pair is refuted.
    Refuted,
    /// No pair is refuted, and some pair is undecided.
    Undecided,
    /// A text is too long or is refused.
    Refused,
    /// The words name no command.
    Words,
    /// A call of the host failed.
    HostFault,
    /// Want of memory: nothing was printed or saved.
    Memory,
    /// A certificate is refused.
    Rejected,
    /// A stimulus violates nothing.
    Holds,
}

impl Status {
    /// The number that the program ends with, from 0 to 8.
    pub fn code(&self) -> u8
        ensures { result ≡ code_of self.now }
    {
        *self as u8
    }
}

/// How a run ends that does all that is due.
#[derive(Clone, Copy, Debug, PartialEq, Eq)]
pub enum Ending {
    Done,
    Refuted,
    Undecided,
    Refused,
    Words,
    Rejected,
    Holds,
}

impl Ending {
    /// The status of a run that meets no fault.
    pub fn status(&self) -> Status
        ensures { result ≡ status_of self.now }
    {
        match self {
            Ending::Done => Status::Done,
            Ending::Refuted => Status::Refuted,
            Ending::Undecided => Status::Undecided,
            Ending::Refused => Status::Refused,
            Ending::Words => Status::Words,
            Ending::Rejected => Status::Rejected,
            Ending::Holds => Status::Holds,
        }
    }
}

/// The status of a run whose last call of the host answered so.
pub fn status_after(answered: Result<(), HostFault>, ending: Ending) -> Status
    ensures { result ≡ status_after answered ending }
{
    match answered {
        Ok(()) => ending.status(),
        Err(_) => Status::HostFault,
    }
}
