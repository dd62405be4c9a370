//! Marks of numbers, a bit for each.
ghost use Rattle.std.specs.Prelude.{◌≡◌, ℕ, ◌<◌, false, true, length, All, Contains, MatchOption, slice_set};
ghost use Rattle.net_model.specs.Netlist.{AllBelow, reg_nets, setting_inputs};
ghost use Rattle.sdcv_base.specs.Seqs.{is_marked};
ghost use Rattle.net_model.specs.Markings.{AddsMarks, IsMarkedTwice};

use crate::netlist::{Fixed, Reg};
use sdcv_base::Seq;

/// Marks a number, and tells whether it was marked before.
pub fn mark(marks: &mut Seq<bool>, number: usize) -> bool
    requires { number < length marks.old }
    ensures was { result ≡ is_marked marks.old number }
    ensures now { marks.new ≡ slice_set marks.old number true }
{
    let was = marks.at(number);
    marks.put(number, true);
    was
}

/// Marks these numbers, up to one that is marked already.
pub fn mark_all(numbers: &Seq<usize>, marks: &mut Seq<bool>) -> Option<usize>
    requires { AllBelow (length marks.old) numbers.now }
    ensures { MatchOption result (AddsMarks numbers.now marks.old marks.new) (IsMarkedTwice numbers.now marks.old) }
{
    for i in 0..numbers.len() {
        let number = numbers.at(i);
        if mark(marks, number) {
            return Some(number);
        }
    }
    None
}

/// Marks the output nets of a register, up to one that is marked already.
pub fn mark_outs(reg: &Reg, marks: &mut Seq<bool>) -> Option<usize>
    requires { AllBelow (length marks.old) (reg_nets reg.now) }
    ensures { MatchOption result (AddsMarks (reg_nets reg.now) marks.old marks.new) (IsMarkedTwice (reg_nets reg.now) marks.old) }
{
    let outs = &reg.outs;
    for o in 0..outs.len() {
        let out = outs.at(o);
        if mark(marks, out.net) {
            return Some(out.net);
        }
    }
    None
}

/// Marks the inputs that are given a value, up to one that is marked already.
pub fn mark_settings(settings: &Seq<Fixed>, marks: &mut Seq<bool>) -> Option<usize>
    requires { AllBelow (length marks.old) (setting_inputs settings.now) }
    ensures { MatchOption result (AddsMarks (setting_inputs settings.now) marks.old marks.new) (IsMarkedTwice (setting_inputs settings.now) marks.old) }
{
    for s in 0..settings.len() {
        let setting = settings.at(s);
        if mark(marks, setting.input) {
            return Some(setting.input);
        }
    }
    None
}

/// A number of the list that has no mark.
pub fn unmarked_of(numbers: &Seq<usize>, marks: &Seq<bool>) -> Option<usize>
    requires { AllBelow (length marks.now) numbers.now }
    ensures all { MatchOption result (All (λ n. is_marked marks.now n ≡ true) numbers.now) (λ n. is_marked marks.now n ≡ false) }
    ensures listed { MatchOption result (All (λ n. is_marked marks.now n ≡ true) numbers.now) (λ n. Contains numbers.now n) }
{
    for i in 0..numbers.len() {
        let number = numbers.at(i);
        if !marks.at(number) {
            return Some(number);
        }
    }
    None
}

/// A number that has no mark.
pub fn first_unmarked(marks: &Seq<bool>) -> Option<usize>
    ensures { MatchOption result ((n : ℕ) → n < length marks.now → is_marked marks.now n ≡ true)
        (λ n. (n < length marks.now) × (is_marked marks.now n ≡ false)) }
{
    for n in 0..marks.len() {
        if !marks.at(n) {
            return Some(n);
        }
    }
    None
}
