//! How claims are judged.

/// How the claims of a script are judged: whether they allow no glitch either, for how many captures, 0 to 8, each false path
/// is judged after the first, whether its hold side is judged too, and whether the script is judged as for a sign-off.
#[derive(Clone, Copy, PartialEq, Eq)]
pub struct Judging {
    pub hazard: bool,
    pub lag: u8,
    pub hold: bool,
    pub strict: bool,
}
