//! Why a line is not of its form.
ghost use Rattle.std.specs.Prelude.{◌≡◌, if◌then◌else◌};

use std::alloc::{AllocError, AllocFailed};

/// Why a line is not of its form.
#[derive(Clone, Copy, Debug, Drop, PartialEq, Eq)]
pub enum Stop {
    /// It breaks the form, and no more bytes can mend it.
    Bad,
    /// It is cut off, and more bytes can make it a line of the form.
    Early,
    Memory,
}

impl From<AllocError> for Stop {
    ghost use Rattle.std.specs.Prelude.{◌≡◌};
    ghost use Rattle.cert_words.specs.declared.stops.Stop.TheVariants.{Memory};

    ghost from_gives = { λ _ e. e ≡ Memory };

    fn from(_: AllocError) -> Stop {
        Stop::Memory
    }
}

impl<T: Drop> From<AllocFailed<T>> for Stop {
    ghost use Rattle.std.specs.Prelude.{◌≡◌};
    ghost use Rattle.cert_words.specs.declared.stops.Stop.TheVariants.{Memory};

    ghost from_gives = { λ _ e. e ≡ Memory };

    fn from(_: AllocFailed<T>) -> Stop {
        Stop::Memory
    }
}

/// A line that is cut off, where more bytes can mend it, or else one that breaks its form.
pub fn cut_off(may_go_on: bool) -> Stop
    ensures { result ≡ (if may_go_on then Stop.Early else Stop.Bad) }
{
    if may_go_on { Stop::Early } else { Stop::Bad }
}
