//! The free bits of a run as a model has them: register bits of the first cycle, and inputs.
ghost use Rattle.std.specs.Prelude.{◌≡◌, ◌<◌, ℕ, length, All, Contains, not, if◌then◌else◌};
ghost use Rattle.net_model.specs.Netlist.{IsSound, setting_inputs, AllBelow};
ghost use Rattle.net_model.specs.Cycles.{bit_at};
ghost use Rattle.net_model.specs.declared.netlist.Fixed.{Fixed as Setting};
ghost use Rattle.query_model.specs.Keys.{key};
ghost use Rattle.query_model.specs.Reads.{bit_key, input_key};
ghost use Rattle.cnf_encode.specs.FreeBits.{value_or_zero, AreFirstBits, AreInputsAt};

use crate::problems::Problem;
use frame_unroll::Frames;
use net_model::Design;
use net_sim::put_settings;
use proof_log::Model;
use query_model::Key;
use sdcv_base::Seq;

/// The model's value of a key, or 0 where no clause has the key.
fn key_value(frames: &Frames, model: &Model, key: &Key) -> bool
    requires count { length model.now.values ≡ length frames.now }
    ensures { result ≡ value_or_zero frames.now model.now.values key.now }
{
    match frames.number(key) {
        Some(number) => model.values.at(number as usize - 1),
        None => false,
    }
}

/// A register's bit in the first cycle.
fn first_bit(design: &Design, frames: &Frames, model: &Model, reg: usize) -> bool
    requires sound { IsSound design.now }
    requires count { length model.now.values ≡ length frames.now }
    requires place { reg < length design.now.regs }
    ensures { result ≡ value_or_zero frames.now model.now.values (bit_key design.now 0 reg) }
{
    let bit = Key {
        cycle: 0,
        layer: 0,
        rail: 0,
        point: design.nets + reg,
    };
    key_value(frames, model, &bit)
}

/// Writes the register bits of the first cycle.
pub fn put_first_bits(design: &Design, frames: &Frames, model: &Model, bits: &mut Seq<bool>)
    requires sound { IsSound design.now }
    requires count { length model.now.values ≡ length frames.now }
    requires len { length bits.old ≡ length design.now.regs }
    ensures { AreFirstBits design.now frames.now model.now.values bits.new }
{
    for r in 0..design.regs.len() {
        bits.put(r, first_bit(design, frames, model, r));
    }
}

/// Writes each input's bit as if no input were fixed or reset.
fn put_values(design: &Design, frames: &Frames, model: &Model, cycle: usize, ins: &mut Seq<bool>)
    requires count { length model.now.values ≡ length frames.now }
    requires len { length ins.old ≡ length design.now.inputs }
    ensures len { length ins.new ≡ length design.now.inputs }
    ensures each { (i : ℕ) → i < length design.now.inputs → bit_at ins.new i ≡ value_or_zero frames.now model.now.values (input_key design.now cycle i) }
{
    for i in 0..design.inputs.len() {
        let key = Key {
            cycle,
            layer: 0,
            rail: 0,
            point: design.inputs.at(i),
        };
        ins.put(i, key_value(frames, model, &key));
    }
}

/// Writes the input bits of a cycle.
pub fn put_inputs(
    design: &Design,
    problem: &Problem,
    model: &Model,
    cycle: usize,
    ins: &mut Seq<bool>,
)
    requires sound { IsSound design.now }
    requires count { length model.now.values ≡ length problem.now.frames }
    requires len { length ins.old ≡ length design.now.inputs }
    ensures { AreInputsAt design.now problem.now.frames model.now.values problem.now.live cycle ins.new }
{
    put_values(design, &problem.frames, model, cycle, ins);
    put_settings(&design.fixed, true, ins);
    put_settings(&design.resets, cycle < problem.live, ins);
}
