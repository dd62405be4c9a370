//! Why no function is read.
ghost use Rattle.std.specs.Prelude.{◌≡◌};
ghost use Rattle.lib_func.specs.declared.stops.Stop.TheVariants as stop;

use std::alloc::{AllocError, AllocFailed};

/// Why no function is read.
#[derive(Drop)]
pub enum Stop {
    NoFunction,
    /// The tree, if the text is a function, is more than 256 high.
    Deep,
    Memory,
}

impl From<AllocError> for Stop {
    ghost from_gives = { λ _ e. e ≡ stop.Memory };

    fn from(_: AllocError) -> Stop {
        Stop::Memory
    }
}

impl<T: Drop> From<AllocFailed<T>> for Stop {
    ghost from_gives = { λ _ e. e ≡ stop.Memory };

    fn from(_: AllocFailed<T>) -> Stop {
        Stop::Memory
    }
}
