//! The numbers of a header.
ghost use Rattle.std.specs.Prelude.{◌^◌, ◌<◌};

/// The numbers of a header.
///
/// What always holds:
/// - few: there are fewer than 2^31 variables.
#[derive(Clone, Copy)]
pub(crate) struct Counts {
    pub vars: u32,
    pub told: u64,
    ghost few: { vars < 2 ^ 31 },
}
