//! Whether a stimulus stands for a run of a design.
ghost use Rattle.std.specs.Prelude.{◌≡◌, ◌↔◌, IsTrue, IfSome, IfNone, All, length};
ghost use Rattle.net_model.specs.Netlist.{IsSound};
ghost use Rattle.net_model.specs.Stimuli.{IsLawful};
ghost use Rattle.witness_replay.specs.Replays.{HasStimulusShape, AreSettingsKept, IsNotReset};

use net_model::{Design, Stimulus};
use net_sim::are_set;
use sdcv_base::Seq;

/// Whether each row has as many bits.
fn have_len(rows: &Seq<Seq<bool>>, len: usize) -> bool
    ensures { IsTrue result ↔ All (λ row. length row ≡ len) rows.now }
{
    rows.as_slice().iter().all(|row| row.len() == len)
}

/// Whether the numbers of bits are those of the design, and there is a cycle.
pub fn has_shape(design: &Design, stimulus: &Stimulus) -> bool
    ensures { IsTrue result ↔ HasStimulusShape design.now stimulus.now }
{
    stimulus.state.len() == design.regs.len()
        && stimulus.inputs.len() > 0
        && have_len(&stimulus.inputs, design.inputs.len())
}

/// Whether fixed inputs are kept, and reset inputs active or else inactive.
fn are_settings_kept(design: &Design, active: bool, ins: &Seq<bool>) -> bool
    requires sound { IsSound design.now }
    requires len { length ins.now ≡ length design.now.inputs }
    ensures { IsTrue result ↔ AreSettingsKept design.now active ins.now }
{
    are_set(&design.fixed, true, ins) && are_set(&design.resets, active, ins)
}

/// The first cycle in which a reset or fixed input has another value than the design gives it.
pub fn first_unlawful(design: &Design, stimulus: &Stimulus) -> Option<usize>
    requires sound { IsSound design.now }
    requires shape { HasStimulusShape design.now stimulus.now }
    ensures some { IfSome result (IsNotReset design.now stimulus.now) }
    ensures none { IfNone result (IsLawful design.now stimulus.now) }
{
    for t in 0..stimulus.inputs.len() {
        let ins = stimulus.inputs.item(t);
        if !are_settings_kept(design, t < design.reset_len, ins) {
            return Some(t);
        }
    }
    None
}
