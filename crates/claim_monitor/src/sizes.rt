//! How many variables of each kind stand in front, and which stands for what.
ghost use Rattle.std.specs.Prelude.{◌≡◌, ◌-◌, if◌then◌else◌, length};
ghost use Rattle.std.specs.List.{list_any};
ghost use Rattle.net_model.specs.Held.{sets, is_held, free_below};
ghost use Rattle.claim_monitor.specs.Fronts as fronts;

use net_model::{Claim, Design, End, Fixed, Kind};
use sdcv_base::Seq;

/// How many variables of each kind stand in front: inputs that are neither fixed nor reset, registers, latches that count the
/// reset's cycles, judged captures, whether a latch keeps the capture of the cycle before, and whether one keeps that it would have
/// been another with the start flipped.
#[derive(Clone, Copy, Debug, PartialEq, Eq)]
pub struct Sizes {
    pub inputs: u64,
    pub regs: u64,
    pub resets: u64,
    pub judged: u64,
    pub has_capture: bool,
    pub has_early: bool,
}

/// Whether one of some settings is of an input.
fn is_set(settings: &Seq<Fixed>, input: usize) -> bool
    ensures { result ≡ list_any (sets input) settings.now }
{
    settings.as_slice().iter().any(|s| s.input == input)
}

/// Whether an input is fixed or reset.
pub(crate) fn is_held(design: &Design, input: usize) -> bool
    ensures { result ≡ is_held design.now input }
{
    is_set(&design.fixed, input) || is_set(&design.resets, input)
}

/// How many inputs are neither fixed nor reset.
fn free_inputs(design: &Design) -> u64
    ensures { result ≡ free_below design.now (length design.now.inputs) }
{
    let mut count = 0;
    for input in 0..design.inputs.len() {
        if !is_held(design, input) {
            count += 1;
        }
    }
    count
}

/// Whether the claim is one of a multicycle path to an output port.
fn has_capture(claim: &Claim) -> bool
    ensures { result ≡ fronts.has_capture claim.now.kind claim.now.end }
{
    match (claim.kind, claim.end) {
        (Kind::Multi(_), End::Output(_)) => true,
        _ => false,
    }
}

impl Sizes {
    /// The sizes for a claim of a design.
    pub fn of(design: &Design, claim: &Claim) -> Sizes
        ensures { result ≡ fronts.sizes_of design.now claim.now }
    {
        Sizes {
            inputs: free_inputs(design),
            regs: design.regs.len() as u64,
            resets: design.reset_len as u64,
            judged: claim.judged_count() as u64,
            has_capture: has_capture(claim),
            has_early: claim.early,
        }
    }

    /// The place of the first of the latches that count the reset's cycles; the one that is 1 where the cycle before was live comes
    /// after them.
    pub(crate) fn resets(&self) -> u64
        requires { fronts.AreSmall self.now }
        ensures { result ≡ fronts.reset_place self.now 0 }
    {
        self.inputs + self.regs
    }

    /// The place of the latch that is 1 where the cycle before was live.
    pub(crate) fn live(&self) -> u64
        requires { fronts.AreSmall self.now }
        ensures { result ≡ fronts.live_place self.now }
    {
        self.inputs + self.regs + self.resets
    }

    /// The place of the first of the latches with the start's bits in the cycles before.
    pub(crate) fn starts(&self) -> u64
        requires { fronts.AreSmall self.now }
        ensures { result ≡ fronts.start_place self.now 0 }
    {
        self.live() + 1
    }

    /// The place of the first of the latches with the toggles in the cycles before.
    pub(crate) fn toggles(&self) -> u64
        requires { fronts.AreSmall self.now }
        ensures { result ≡ fronts.toggle_place self.now 0 }
    {
        self.starts() + self.judged
    }

    /// How many latches have toggles.
    pub(crate) fn toggle_count(&self) -> u64
        ensures { result ≡ self.now.judged - 1 }
    {
        self.judged.saturating_sub(1)
    }

    /// The place of the latch with the capture of the cycle before.
    pub(crate) fn capture(&self) -> u64
        requires { fronts.AreSmall self.now }
        ensures { result ≡ fronts.capture_place self.now }
    {
        self.toggles() + self.toggle_count()
    }

    /// How many latches have the capture of the cycle before.
    pub(crate) fn capture_count(&self) -> u64
        ensures { result ≡ (if self.now.has_capture then 1 else 0) }
    {
        u64::from(self.has_capture)
    }

    /// The place of the latch that is 1 where the capture of the cycle before would have been another with the start flipped.
    pub(crate) fn early(&self) -> u64
        requires { fronts.AreSmall self.now }
        ensures { result ≡ fronts.early_place self.now }
    {
        self.capture() + self.capture_count()
    }

    /// How many such latches there are.
    pub(crate) fn early_count(&self) -> u64
        ensures { result ≡ (if self.now.has_early then 1 else 0) }
    {
        u64::from(self.has_early)
    }

    /// How many variables stand in front.
    pub(crate) fn front(&self) -> u64
        requires { fronts.AreSmall self.now }
        ensures { result ≡ fronts.front_count self.now }
    {
        self.early() + self.early_count()
    }
}
