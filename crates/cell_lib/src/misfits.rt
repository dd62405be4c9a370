//! Why a cell is not modelled.
ghost use Rattle.std.specs.Prelude.{◌≡◌};
ghost use Rattle.cell_lib.specs.declared.misfits.Misfit.TheVariants as misfit;

use std::alloc::{AllocError, AllocFailed};

/// Why a pin or a group makes its cell none of the kinds that are modelled.
#[derive(Drop)]
pub enum Misfit {
    Other,
    Memory,
}

impl From<AllocError> for Misfit {
    ghost from_gives = { λ _ e. e ≡ misfit.Memory };

    fn from(_: AllocError) -> Misfit {
        Misfit::Memory
    }
}

impl<T: Drop> From<AllocFailed<T>> for Misfit {
    ghost from_gives = { λ _ e. e ≡ misfit.Memory };

    fn from(_: AllocFailed<T>) -> Misfit {
        Misfit::Memory
    }
}
