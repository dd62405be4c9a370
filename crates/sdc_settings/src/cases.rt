//! What case analyses give.
ghost use Rattle.std.specs.Prelude.{◌≡◌, ◌<◌, ◌++◌, ℕ, All, IsTrue, ◌↔◌, IfOk, IfErr, OnOk, flat_map, length, map, false};
ghost use Rattle.sdc_settings.specs.Inputs.{name_at};
ghost use Rattle.sdc_settings.specs.Settings as spec;
ghost use Rattle.sdc_settings.specs.Settings.{case_places, case_objects, IsCaseObject, AreCaseObjects, given, given_by};
ghost use Rattle.sdc_settings.specs.Causes.{IsObjectCause, IsCaseCause};
ghost use Rattle.sdc_settings.specs.declared.cases.Given.{Given as GivenRecord};

use crate::inputs::{add_port_places, is_port_object, object_text};
use linked_types::PortName;
use script_types::{Command, Object, Script, What};
use sdcv_base::{Name, Seq};
use selected_types::ExpandFault;
use std::alloc::{AllocError, Global};

/// An input bit, by its place, is given a value by a command on this line.
#[derive(Clone, Copy, PartialEq, Eq)]
pub struct Given {
    pub line: u64,
    pub value: bool,
    pub input: usize,
}

/// What all case analyses of a script give, in their order.
pub(crate) fn all_given(
    alloc: Global,
    script: &Script,
    inputs: &Seq<PortName>,
    clock: &Option<Name>,
) -> Result<Seq<Given>, ExpandFault>
    ensures ok { IfOk result (λ givens. givens ≡ spec.all_given script.now inputs.now clock.now) }
    ensures objects { OnOk result (AreCaseObjects script.now inputs.now clock.now) }
    ensures within { IfOk result (All (λ (g : GivenRecord). g.input < length inputs.now)) }
    ensures err { IfErr result (IsCaseCause inputs.now clock.now script.now.commands) }
{
    let mut givens = Seq::new(alloc);
    for k in 0..script.commands.len() {
        let command = script.commands.item(k);
        if let What::Case { value, objects } = &command.what {
            let places = places_of(alloc, command.line, objects, inputs, clock)?;
            add_given(command.line, *value, &places, &mut givens)?;
        }
    }
    Ok(givens)
}

// The places of the data inputs that the objects of a case analysis on this line name.
fn places_of(
    alloc: Global,
    line: u64,
    objects: &Seq<Object>,
    inputs: &Seq<PortName>,
    clock: &Option<Name>,
) -> Result<Seq<usize>, ExpandFault>
    ensures ok { IfOk result (λ places. places ≡ flat_map (case_places inputs.now clock.now) objects.now) }
    ensures objects { OnOk result (All (IsCaseObject inputs.now clock.now) objects.now) }
    ensures within { IfOk result (All (λ (place : ℕ). place < length inputs.now)) }
    ensures err { IfErr result (IsObjectCause inputs.now clock.now line objects.now) }
{
    let mut places = Seq::new(alloc);
    for k in 0..objects.len() {
        let object = objects.item(k);
        let of_object = object_places(alloc, object, inputs, clock)?;
        if !is_case_object(object) || of_object.is_empty() || !are_data(inputs, &of_object, clock) {
            return Err(ExpandFault::CaseOnPin(line, object_text(alloc, object)?));
        }
        append(&of_object, &mut places)?;
    }
    Ok(places)
}

fn is_case_object(object: &Object) -> bool
    ensures { result ≡ spec.is_case_object object.now }
{
    match object {
        Object::AllInputs => true,
        Object::Named(_) | Object::AllOutputs | Object::AllRegisters | Object::AllClocks =>
            is_port_object(object),
    }
}

// The places of the input bits that an object of a case analysis names.
fn object_places(
    alloc: Global,
    object: &Object,
    inputs: &Seq<PortName>,
    clock: &Option<Name>,
) -> Result<Seq<usize>, AllocError>
    ensures { IfOk result (λ places. places ≡ case_places inputs.now clock.now object.now) }
{
    let mut places = Seq::new(alloc);
    match object {
        Object::AllInputs => add_data(inputs, clock, &mut places)?,
        Object::Named(_) | Object::AllOutputs | Object::AllRegisters | Object::AllClocks => {
            add_port_places(inputs, object, &mut places)?;
        }
    }
    Ok(places)
}

fn add_data(
    inputs: &Seq<PortName>,
    clock: &Option<Name>,
    found: &mut Seq<usize>,
) -> Result<(), AllocError>
    ensures { OnOk result (found.new ≡ found.old ++ spec.data_places inputs.now clock.now) }
{
    for place in 0..inputs.len() {
        if !is_clock(clock, &inputs.item(place).name) {
            found.push(place)?;
        }
    }
    Ok(())
}

pub(crate) fn is_clock(clock: &Option<Name>, name: &Name) -> bool
    ensures { result ≡ spec.is_clock clock.now name.now }
{
    match clock {
        Some(bit) => bit == name,
        None => false,
    }
}

// Whether none of the input bits at these places is the clock.
fn are_data(inputs: &Seq<PortName>, places: &Seq<usize>, clock: &Option<Name>) -> bool
    requires { All (λ (place : ℕ). place < length inputs.now) places.now }
    ensures { IsTrue result ↔ All (λ place. spec.is_clock clock.now (name_at inputs.now place) ≡ false) places.now }
{
    for k in 0..places.len() {
        if is_clock(clock, &inputs.item(places.at(k)).name) {
            return false;
        }
    }
    true
}

fn append(more: &Seq<usize>, places: &mut Seq<usize>) -> Result<(), AllocError>
    ensures { OnOk result (places.new ≡ places.old ++ more.now) }
{
    for k in 0..more.len() {
        places.push(more.at(k))?;
    }
    Ok(())
}

fn add_given(
    line: u64,
    value: bool,
    places: &Seq<usize>,
    givens: &mut Seq<Given>,
) -> Result<(), AllocError>
    ensures { OnOk result (givens.new ≡ givens.old ++ map (given line value) places.now) }
{
    for k in 0..places.len() {
        givens.push(Given {
            line,
            value,
            input: places.at(k),
        })?;
    }
    Ok(())
}
