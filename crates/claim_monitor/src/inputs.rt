//! The literals of inputs.
ghost use Rattle.std.specs.Prelude.{◌≡◌, ◌≤◌, ◌<◌, ℕ, false, Bool, List, OnOk, IfOk, length, Contains};
ghost use Rattle.net_model.specs.Netlist.{IsSound, AllBelow, setting_inputs};
ghost use Rattle.net_model.specs.Cycles.{bit_at};
ghost use Rattle.net_model.specs.Held.{is_held, free_below};
ghost use Rattle.net_sim.specs.Settings.{AreApart, AreSet, set_bit};
ghost use Rattle.and_graphs.specs.Graphs.{Means};
ghost use Rattle.and_graphs.specs.declared.graphs.AndGraph.{AndGraph as Graph};
ghost use Rattle.claim_monitor.specs.Fronts.{AreSmall, front_count};
ghost use Rattle.claim_monitor.specs.Shown.{AreIn, AreInputLiterals, shown_row, is_live};

use crate::sizes::{Sizes, is_held};
use and_graphs::{AndGraph, bit_literal, complement};
use net_model::{Design, Fixed};
use sdcv_base::Seq;
use std::alloc::{AllocError, Global};

/// The literal that is 1 where the cycle is live: the latch of the reset's last cycle, and 1 where there is no reset.
pub(crate) fn live_literal(graph: &AndGraph, sizes: &Sizes) -> Result<u64, AllocError>
    requires small { AreSmall sizes.now }
    requires front { graph.now.front ≡ front_count sizes.now }
    ensures { IfOk result (λ l. Means graph.now l (is_live sizes.now)) }
{
    if sizes.resets == 0 {
        return Ok(bit_literal(true));
    }
    graph.variable(sizes.live() - 1)
}

/// Writes the variables of the inputs that are neither fixed nor reset.
fn put_free(design: &Design, graph: &AndGraph, ins: &mut Seq<u64>) -> Result<(), AllocError>
    requires len { length ins.old ≡ length design.now.inputs }
    requires in_ { AreIn graph.now ins.old }
    requires front { free_below design.now (length design.now.inputs) ≤ graph.now.front }
    ensures len { OnOk result (length ins.new ≡ length design.now.inputs) }
    ensures in_ { OnOk result (AreIn graph.now ins.new) }
    ensures free { OnOk result ((x : List Bool) → length x ≡ graph.now.front → (i : ℕ) → i < length design.now.inputs → is_held design.now i ≡ false
        → bit_at (shown_row graph.now x ins.new) i ≡ bit_at x (free_below design.now i)) }
{
    let mut place = 0;
    for input in 0..design.inputs.len() {
        if !is_held(design, input) {
            let literal = graph.variable(place)?;
            ins.put(input, literal);
            place += 1;
        }
    }
    Ok(())
}

/// The literal of a setting: `active` where it is 1 when active, else the complement.
fn setting_literal(setting: Fixed, active: u64) -> u64
    ensures { (g : Graph) (a : List Bool → Bool) → Means g active a → Means g result (λ x. set_bit (a x) setting) }
{
    if setting.value {
        active
    } else {
        complement(active)
    }
}

/// Writes the literals of settings to their inputs.
fn put_settings(settings: &Seq<Fixed>, active: u64, ins: &mut Seq<u64>)
    requires in_range { AllBelow (length ins.old) (setting_inputs settings.now) }
    requires apart { AreApart settings.now }
    ensures len { length ins.new ≡ length ins.old }
    ensures in_ { (g : Graph) (a : List Bool → Bool) → Means g active a → AreIn g ins.old → AreIn g ins.new }
    ensures put { (g : Graph) (a : List Bool → Bool) (x : List Bool) → Means g active a → length x ≡ g.front
        → AreSet (a x) settings.now (shown_row g x ins.new) }
    ensures others { (g : Graph) (a : List Bool → Bool) (x : List Bool) (i : ℕ) → Means g active a → length x ≡ g.front
        → ¬ Contains (setting_inputs settings.now) i → bit_at (shown_row g x ins.new) i ≡ bit_at (shown_row g x ins.old) i }
{
    for k in 0..settings.len() {
        let setting = settings.at(k);
        let literal = setting_literal(setting, active);
        ins.put(setting.input, literal);
    }
}

/// The literals of all inputs.
pub(crate) fn input_literals(
    alloc: Global,
    design: &Design,
    sizes: &Sizes,
    graph: &AndGraph,
) -> Result<Seq<u64>, AllocError>
    requires sound { IsSound design.now }
    requires small { AreSmall sizes.now }
    requires front { graph.now.front ≡ front_count sizes.now }
    requires inputs { sizes.now.inputs ≡ free_below design.now (length design.now.inputs) }
    ensures { IfOk result (AreInputLiterals graph.now design.now sizes.now) }
{
    let live = live_literal(graph, sizes)?;
    let mut ins = Seq::filled(alloc, 0, design.inputs.len())?;
    put_free(design, graph, &mut ins)?;
    put_settings(&design.fixed, bit_literal(true), &mut ins);
    put_settings(&design.resets, complement(live), &mut ins);
    Ok(ins)
}
