//! Whether settings are the same.
ghost use Rattle.std.specs.Prelude.{◌≡◌, ◌↔◌, IsTrue};

use sdc_settings::Settings;
use sdcv_base::{Name, Seq, Setting};

fn is_name(a: &Name, b: &Name) -> bool
    ensures { IsTrue result ↔ (a.now ≡ b.now) }
{
    a == b
}

fn is_clock(a: &Option<Name>, b: &Option<Name>) -> bool
    ensures { IsTrue result ↔ (a.now ≡ b.now) }
{
    match (a, b) {
        (None, None) => true,
        (Some(a), Some(b)) => is_name(a, b),
        _ => false,
    }
}

fn is_setting(a: &Setting, b: &Setting) -> bool
    ensures { IsTrue result ↔ (a.now ≡ b.now) }
{
    is_name(&a.name, &b.name) && a.value == b.value
}

fn are_settings(a: &Seq<Setting>, b: &Seq<Setting>) -> bool
    ensures { IsTrue result ↔ (a.now ≡ b.now) }
{
    if a.len() != b.len() {
        return false;
    }
    for k in 0..a.len() {
        if !is_setting(a.item(k), b.item(k)) {
            return false;
        }
    }
    true
}

/// Whether both have the same clock and the same fixed inputs, in the same order.
pub(crate) fn is_settings(a: &Settings, b: &Settings) -> bool
    ensures { IsTrue result ↔ (a.now ≡ b.now) }
{
    is_clock(&a.clock, &b.clock) && are_settings(&a.fixed, &b.fixed)
}
