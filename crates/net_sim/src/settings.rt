//! Inputs that are fixed or reset.
ghost use Rattle.std.specs.Prelude.{◌≡◌, ◌↔◌, ℕ, IsTrue, Contains, length};
ghost use Rattle.net_model.specs.Netlist.{setting_inputs, AllBelow};
ghost use Rattle.net_model.specs.Cycles.{bit_at};
ghost use Rattle.net_sim.specs.Settings.{set_bit, AreApart, AreSet};

use net_model::Fixed;
use sdcv_base::Seq;

fn set_bit(setting: Fixed, active: bool) -> bool
    ensures { result ≡ set_bit active setting }
{
    if active {
        setting.value
    } else {
        !setting.value
    }
}

/// Writes the values of settings, or where not `active` their complements, to their inputs.
pub fn put_settings(settings: &Seq<Fixed>, active: bool, ins: &mut Seq<bool>)
    requires in_range { AllBelow (length ins.old) (setting_inputs settings.now) }
    requires apart { AreApart settings.now }
    ensures len { length ins.new ≡ length ins.old }
    ensures put { AreSet active settings.now ins.new }
    ensures others { (i : ℕ) → ¬ Contains (setting_inputs settings.now) i → bit_at ins.new i ≡ bit_at ins.old i }
{
    for k in 0..settings.len() {
        let setting = settings.at(k);
        ins.put(setting.input, set_bit(setting, active));
    }
}

/// Whether these inputs have the values given for them, or where not `active` the complements.
pub fn are_set(settings: &Seq<Fixed>, active: bool, ins: &Seq<bool>) -> bool
    requires { AllBelow (length ins.now) (setting_inputs settings.now) }
    ensures { IsTrue result ↔ AreSet active settings.now ins.now }
{
    for k in 0..settings.len() {
        let setting = settings.at(k);
        if ins.at(setting.input) != set_bit(setting, active) {
            return false;
        }
    }
    true
}
