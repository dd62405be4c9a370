//! The input bits of sixty-four runs in one cycle.
ghost use Rattle.std.specs.Prelude.{◌≡◌, ◌<◌, ◌+◌, ◌||◌, ℕ, IfOk, Contains, length};
ghost use Rattle.std.specs.List.{list_any};
ghost use Rattle.net_model.specs.Netlist.{IsSound, AllBelow, setting_inputs};
ghost use Rattle.net_model.specs.Cycles.{bit_at};
ghost use Rattle.net_model.specs.Stimuli.{AreInputs};
ghost use Rattle.net_model.specs.LaneBits.{lane, lane_row};
ghost use Rattle.net_sim.specs.Settings.{set_bit, AreApart, AreSet};
ghost use Rattle.drawn_runs.specs.Draws.{after};
ghost use Rattle.net_model.specs.Held.{sets, is_held, free_below};
ghost use Rattle.drawn_runs.specs.Drawn.{AreFree};
ghost use Rattle.drawn_runs.specs.Inputs.{AreHeldMarks, AreDrawnTo};

use crate::draws::draw;
use net_model::{Design, Fixed, Lanes, Value};
use rand_pcg::Lcg64Xsh32;
use sdcv_base::Seq;
use std::alloc::{AllocError, Global};

/// Whether one of some settings is of an input.
fn is_set(settings: &Seq<Fixed>, input: usize) -> bool
    ensures { result ≡ list_any (sets input) settings.now }
{
    for setting in settings.as_slice() {
        if setting.input == input {
            return true;
        }
    }
    false
}

/// Whether an input is fixed or reset.
fn is_held(design: &Design, input: usize) -> bool
    ensures { result ≡ is_held design.now input }
{
    is_set(&design.fixed, input) || is_set(&design.resets, input)
}

/// For each input whether it is fixed or reset.
pub(crate) fn held_marks(alloc: Global, design: &Design) -> Result<Seq<bool>, AllocError>
    ensures { IfOk result (AreHeldMarks design.now) }
{
    let mut marks = Seq::new(alloc);
    for input in 0..design.inputs.len() {
        marks.push(is_held(design, input))?;
    }
    Ok(marks)
}

/// Writes a drawn word to each input that is neither fixed nor reset, in turn.
fn put_free(design: &Design, marks: &Seq<bool>, rng: &mut Lcg64Xsh32, ins: &mut Seq<Lanes>)
    requires marks { AreHeldMarks design.now marks.now }
    requires len { length ins.old ≡ length design.now.inputs }
    ensures len { length ins.new ≡ length design.now.inputs }
    ensures drawn { (base : ℕ) → rng.old ≡ after base → AreDrawnTo design.now base ins.new (length design.now.inputs) rng.new }
{
    for input in 0..design.inputs.len() {
        let held = marks.at(input);
        if !held {
            let word = draw(rng);
            ins.put(input, word);
        }
    }
}

/// In each lane the bit that a setting gives its input.
fn set_lanes(setting: Fixed, active: bool) -> Lanes
    ensures { (i : ℕ) → i < 64 → lane result i ≡ set_bit active setting }
{
    if active {
        Lanes::of_bit(setting.value)
    } else {
        Lanes::of_bit(!setting.value)
    }
}

/// Writes the values of settings, or where not `active` their complements, to their inputs, in each lane.
fn put_settings64(settings: &Seq<Fixed>, active: bool, ins: &mut Seq<Lanes>)
    requires in_range { AllBelow (length ins.old) (setting_inputs settings.now) }
    requires apart { AreApart settings.now }
    ensures len { length ins.new ≡ length ins.old }
    ensures put { (i : ℕ) → i < 64 → AreSet active settings.now (lane_row i ins.new) }
    ensures others { (i : ℕ) → i < 64 → (k : ℕ) → ¬ Contains (setting_inputs settings.now) k → bit_at (lane_row i ins.new) k
        ≡ bit_at (lane_row i ins.old) k }
{
    for k in 0..settings.len() {
        let setting = settings.at(k);
        ins.put(setting.input, set_lanes(setting, active));
    }
}

/// Writes the input bits of a cycle, resets being active or else inactive.
pub(crate) fn fill_inputs(
    design: &Design,
    marks: &Seq<bool>,
    active: bool,
    rng: &mut Lcg64Xsh32,
    ins: &mut Seq<Lanes>,
)
    requires sound { IsSound design.now }
    requires marks { AreHeldMarks design.now marks.now }
    requires len { length ins.old ≡ length design.now.inputs }
    ensures len { length ins.new ≡ length design.now.inputs }
    ensures lawful { (i : ℕ) → i < 64 → AreInputs design.now active (lane_row i ins.new) }
    ensures next { (base : ℕ) → rng.old ≡ after base → rng.new ≡ after (base + free_below design.now (length design.now.inputs)) }
    ensures free { (base : ℕ) → rng.old ≡ after base → (i : ℕ) → i < 64 → AreFree design.now i base (lane_row i ins.new) }
{
    put_free(design, marks, rng, ins);
    put_settings64(&design.fixed, true, ins);
    put_settings64(&design.resets, active, ins);
}
