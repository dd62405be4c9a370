//! Flops (Liberty, group `ff`).
ghost use Rattle.std.specs.Prelude.{◌≡◌, IfOk, OnOk};
ghost use Rattle.std.specs.Option.{option_copied};
ghost use Rattle.texts.specs.Names.{is_among};
ghost use Rattle.texts.specs.Reads.{Gives};
ghost use Rattle.cell_lib.specs.Fails.{Fails};
ghost use Rattle.cell_lib.specs.Flops as spec;

use crate::misfits::Misfit;
use crate::pins::OutPin;
use crate::scopes::{States, resolve};
use crate::values::{expr_of, says};
use crate::{Flop, FlopOut};
use lib_func::{Expr, Term};
use lib_words::{Attribute, AttributeKind, Part};
use net_model::Func;
use sdcv_base::{Name, Seq};
use std::alloc::{AllocError, Global};
use texts::NameTable;

/// What `clear` and `preset` do, and the state where both are 1.
#[derive(Drop)]
pub struct Resets {
    pub clear: Option<Func>,
    pub preset: Option<Func>,
    pub both: bool,
}

/// The names of the state and of its complement: the group's two arguments.
fn states_of(alloc: Global, names: &[Name]) -> Result<States, Misfit>
    ensures { Gives Fails (λ x. x) result (spec.states_of names.now) }
{
    match names {
        [state, complement] => {
            let state = state.copy(alloc)?;
            let complement = complement.copy(alloc)?;
            Ok(States { state, complement })
        }
        _ => Err(Misfit::Other),
    }
}

/// Whether a name is among these.
fn is_named(names: &[Name], name: &Name) -> bool
    ensures { result ≡ is_among name.now names.now }
{
    names.iter().any(|n| name == n)
}

/// The name that an expression is.
fn lone_name(expr: &Option<Expr>) -> Option<&Name>
    ensures { option_copied result ≡ spec.lone_name expr.now }
{
    match expr {
        Some(expr) => match &expr.root {
            Term::Name(name) => Some(name),
            _ => None,
        },
        None => None,
    }
}

/// The clock pin.
#[tactic(auto, unfolding(crate::specs::Flops::clock_of))]
fn clock_of(alloc: Global, inputs: &[Name], attributes: &[Attribute]) -> Result<Name, Misfit>
    ensures { Gives Fails (λ x. x) result (spec.clock_of inputs.now attributes.now) }
{
    let expr = expr_of(alloc, attributes, AttributeKind::ClockedOn)?;
    match lone_name(&expr) {
        Some(name) => {
            if !is_named(inputs, name) {
                return Err(Misfit::Other);
            }
            Ok(name.copy(alloc)?)
        }
        None => Err(Misfit::Other),
    }
}

/// Adds a name that is not the clock's.
fn add_data(
    alloc: Global,
    table: &mut NameTable,
    clock: &Name,
    name: &Name,
) -> Result<(), AllocError>
    ensures { OnOk result (table.new ≡ spec.with_data clock.now table.old name.now) }
{
    if name == clock {
        return Ok(());
    }
    table.add(alloc, name)?;
    Ok(())
}

/// The input pins other than the clock.
pub fn data_inputs(alloc: Global, clock: &Name, inputs: &[Name]) -> Result<NameTable, AllocError>
    ensures { IfOk result (λ t. t ≡ spec.data_inputs clock.now inputs.now) }
{
    let mut table = NameTable::new(alloc);
    for name in inputs {
        add_data(alloc, &mut table, clock, name)?;
    }
    Ok(table)
}

/// The next state, a function of input pins and of the state.
#[tactic(auto, unfolding(crate::specs::Flops::next_of))]
fn next_of(
    alloc: Global,
    inputs: &NameTable,
    states: &States,
    attributes: &[Attribute],
) -> Result<Func, Misfit>
    ensures { Gives Fails (λ x. x) result (spec.next_of inputs.now states.now attributes.now) }
{
    let Some(expr) = expr_of(alloc, attributes, AttributeKind::NextState)? else {
        return Err(Misfit::Other);
    };
    match resolve(alloc, &expr, inputs, Some(states))? {
        Some(func) => Ok(func),
        None => Err(Misfit::Other),
    }
}

/// What `clear` or `preset` does, where it is given.
fn reset_of(alloc: Global, inputs: &NameTable, expr: Option<Expr>) -> Result<Option<Func>, Misfit>
    ensures { Gives Fails (λ x. x) result (spec.reset_of inputs.now expr) }
{
    let Some(expr) = expr else {
        return Ok(None);
    };
    match resolve(alloc, &expr, inputs, None)? {
        Some(func) => Ok(Some(func)),
        None => Err(Misfit::Other),
    }
}

/// The state where clear and preset are both 1, as stated where both are given.
#[tactic(auto, unfolding(crate::specs::Flops::both_of))]
fn both_of(are_given: bool, attributes: &[Attribute]) -> Result<bool, Misfit>
    ensures { Gives Fails (λ x. x) result (spec.both_of are_given attributes.now) }
{
    if !are_given {
        Ok(false)
    } else if says(attributes, AttributeKind::ClearPresetVar1, "L") {
        Ok(false)
    } else if says(attributes, AttributeKind::ClearPresetVar1, "H") {
        Ok(true)
    } else {
        Err(Misfit::Other)
    }
}

/// What `clear` and `preset` do.
#[tactic(auto, unfolding(crate::specs::Flops::resets_of))]
fn resets_of(alloc: Global, inputs: &NameTable, attributes: &[Attribute]) -> Result<Resets, Misfit>
    ensures { Gives Fails (λ x. x) result (spec.resets_of inputs.now attributes.now) }
{
    let clear = expr_of(alloc, attributes, AttributeKind::Clear)?;
    let clear = reset_of(alloc, inputs, clear)?;
    let preset = expr_of(alloc, attributes, AttributeKind::Preset)?;
    let preset = reset_of(alloc, inputs, preset)?;
    let both = both_of(clear.is_some() && preset.is_some(), attributes)?;
    Ok(Resets {
        clear,
        preset,
        both,
    })
}

/// Whether a name of the state is the complement.
fn name_phase(states: &States, name: &Name) -> Option<bool>
    ensures { result ≡ spec.name_phase states.now name.now }
{
    if *name == states.state {
        Some(false)
    } else if *name == states.complement {
        Some(true)
    } else {
        None
    }
}

/// Whether the output is the complement.
fn phase_of(states: &States, expr: &Expr) -> Option<bool>
    ensures { result ≡ spec.phase_of states.now expr.now }
{
    match &expr.root {
        Term::Name(name) => name_phase(states, name),
        Term::Not(operand) => match &operand.root {
            Term::Name(name) => name_phase(states, name).map(|b| !b),
            _ => None,
        },
        _ => None,
    }
}

/// An output pin that is the state or its complement.
#[tactic(auto, unfolding(crate::specs::Flops::flop_out))]
fn flop_out(alloc: Global, states: &States, out: &OutPin) -> Result<FlopOut, Misfit>
    ensures { Gives Fails (λ x. x) result (spec.flop_out states.now out.now) }
{
    let Some(expr) = &out.func else {
        return Err(Misfit::Other);
    };
    let Some(inverted) = phase_of(states, expr) else {
        return Err(Misfit::Other);
    };
    let name = out.name.copy(alloc)?;
    Ok(FlopOut { name, inverted })
}

/// The output pins, where each is the state or its complement.
#[tactic(auto, using(texts::proofs::EachLemmas::each_none, texts::proofs::EachLemmas::each_more, texts::proofs::EachLemmas::each_bad))]
fn flop_outs(alloc: Global, states: &States, outs: &[OutPin]) -> Result<Seq<FlopOut>, Misfit>
    ensures { Gives Fails (λ x. x) result (spec.flop_outs states.now outs.now) }
{
    let mut found = Seq::new(alloc);
    for out in outs {
        let out = flop_out(alloc, states, out)?;
        found.push(out)?;
    }
    Ok(found)
}

/// The flop on this clock whose other input pins are these.
#[tactic(auto, unfolding(crate::specs::Flops::flop_on))]
fn flop_on(
    alloc: Global,
    clock: Name,
    pins: &NameTable,
    states: &States,
    outs: &[OutPin],
    attributes: &[Attribute],
) -> Result<Flop, Misfit>
    ensures { Gives Fails (λ x. x) result (spec.flop_on clock pins.now states.now outs.now attributes.now) }
{
    let next = next_of(alloc, pins, states, attributes)?;
    let resets = resets_of(alloc, pins, attributes)?;
    let outs = flop_outs(alloc, states, outs)?;
    Ok(Flop {
        clock,
        next,
        clear: resets.clear,
        preset: resets.preset,
        both: resets.both,
        outs,
    })
}

/// The flop that a group `ff` makes of a cell's pins.
#[tactic(auto, unfolding(crate::specs::Flops::flop_of))]
pub fn flop_of(alloc: Global, inputs: &[Name], outs: &[OutPin], ff: &Part) -> Result<Flop, Misfit>
    ensures { Gives Fails (λ x. x) result (spec.flop_of inputs.now outs.now ff.now) }
{
    let attributes = ff.attributes.as_slice();
    let states = states_of(alloc, ff.names.as_slice())?;
    let clock = clock_of(alloc, inputs, attributes)?;
    let pins = data_inputs(alloc, &clock, inputs)?;
    flop_on(alloc, clock, &pins, &states, outs, attributes)
}
