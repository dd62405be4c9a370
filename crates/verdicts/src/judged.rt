//! Which claims queries are asked about.
ghost use Rattle.std.specs.Prelude.{◌↔◌, IsTrue, Contains};
ghost use Rattle.net_model.specs.Netlist.{setting_inputs};
ghost use Rattle.net_model.specs.Held.{IsHeldStart};
ghost use Rattle.verdicts.specs.Verdicts.{IsJudged};

use net_model::{Claim, Design, Fixed, Start};
use sdcv_base::Seq;

/// Whether queries are asked about a claim: it judges a capture, and its start may toggle.
pub fn is_judged(design: &Design, claim: &Claim) -> bool
    ensures { IsTrue result ↔ IsJudged design.now claim.now }
{
    claim.judged_count() != 0 && !is_held_start(design, &claim.start)
}

/// Whether the start is a fixed or a reset input, which never toggles after the reset's end.
pub fn is_held_start(design: &Design, start: &Start) -> bool
    ensures { IsTrue result ↔ IsHeldStart design.now start.now }
{
    match start {
        Start::Reg(_) => false,
        Start::Input(input) => is_set(&design.fixed, *input) || is_set(&design.resets, *input),
    }
}

fn is_set(settings: &Seq<Fixed>, input: usize) -> bool
    ensures { IsTrue result ↔ Contains (setting_inputs settings.now) input }
{
    for k in 0..settings.len() {
        if settings.at(k).input == input {
            return true;
        }
    }
    false
}
