//! Why there is nothing to print or to save.
ghost use Rattle.std.specs.Prelude.{◌≡◌, IfOk, IfErr, Ok};
ghost use Rattle.view_commands.specs.declared.stops.Stop.TheVariants.{Memory};
ghost use Rattle.view_commands.specs.Stops.{status_of};

use design_stages::Refusal;
use sdcv_base::Name;
use std::alloc::AllocError;
use thiserror::Error;

/// Why there is nothing to print or to save. `Display` writes the line that is told.
#[derive(Debug, Drop, Error)]
pub enum Stop {
    /// The value of an option breaks its rule.
    #[error("{0}")]
    Words(&'static str),
    /// A text or a design is refused, in the line of its fault.
    #[error("{0}")]
    Line(Name),
    /// A report is refused, for this reason.
    #[error("{0}")]
    Refused(String),
    #[error("out of memory")]
    Memory,
}

impl Stop {
    /// What is refused in this line, or want of memory for it.
    pub fn refused(line: Result<String, AllocError>) -> Stop {
        match line {
            Ok(line) => Stop::Refused(line),
            Err(_) => Stop::Memory,
        }
    }

    /// The status of a program that ends so.
    pub fn status(&self) -> u8
        ensures { result ≡ status_of self.now }
    {
        match self {
            Stop::Words(_) => 2,
            Stop::Line(_) | Stop::Refused(_) => 3,
            Stop::Memory => 6,
        }
    }
}

/// What was made, where there was memory for it.
pub(crate) fn or_stop<T>(made: Result<T, AllocError>) -> Result<T, Stop>
    ensures ok { IfOk result (λ value. made ≡ Ok value) }
    ensures err { IfErr result (λ stop. stop ≡ Memory) }
{
    match made {
        Ok(made) => Ok(made),
        Err(_) => Err(Stop::Memory),
    }
}

impl From<AllocError> for Stop {
    ghost from_gives = { λ _ e. e ≡ Memory };

    fn from(_: AllocError) -> Stop {
        Stop::Memory
    }
}

impl From<Refusal> for Stop {
    fn from(refusal: Refusal) -> Stop {
        match refusal {
            Refusal::Line(mut line) => {
                let _newline = line.pop();
                Stop::Line(Name::from_vec(line))
            }
            Refusal::Memory => Stop::Memory,
        }
    }
}
