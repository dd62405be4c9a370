//! Why a stage found nothing.
ghost use Rattle.std.specs.Prelude.{◌≡◌};
ghost use Rattle.design_stages.specs.declared.refusals.Refusal.TheVariants.{Memory};

use std::alloc::AllocError;

/// Why a stage found nothing.
#[derive(Drop)]
pub enum Refusal {
    /// A text or a design is refused. This line says why, with its newline.
    Line(Vec<u8>),
    Memory,
}

impl From<AllocError> for Refusal {
    ghost from_gives = { λ _ e. e ≡ Memory };

    fn from(_: AllocError) -> Refusal {
        Refusal::Memory
    }
}
