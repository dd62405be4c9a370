//! What comes of the values of case analyses: assumptions, fixed inputs, and what is told.
ghost use Rattle.std.specs.Prelude.{◌≡◌, ◌++◌, flat_map, IfOk, OnOk};
ghost use Rattle.case_objects.specs.CaseObjects as spec;

use crate::values::{CaseValue, Told};
use case_inputs::Assumed;
use net_model::Fixed;
use sdcv_base::{Name, Seq};
use std::alloc::{AllocError, Global};

/// The assumptions.
pub(crate) fn assumptions(
    alloc: Global,
    values: &Seq<CaseValue>,
) -> Result<Seq<Assumed>, AllocError>
    ensures { IfOk result (λ list. list ≡ flat_map spec.assumed_of values.now) }
{
    let mut list = Seq::new(alloc);
    for k in 0..values.len() {
        add_assumed(alloc, values.item(k), &mut list)?;
    }
    Ok(list)
}

fn add_assumed(alloc: Global, value: &CaseValue, list: &mut Seq<Assumed>) -> Result<(), AllocError>
    ensures { OnOk result (list.new ≡ list.old ++ spec.assumed_of value.now) }
{
    if value.input.is_none() {
        let pins = value.place.copy(alloc)?;
        list.push(Assumed {
            pins,
            value: value.value,
        })?;
    }
    Ok(())
}

/// The full names of the assumptions.
pub(crate) fn names(alloc: Global, values: &Seq<CaseValue>) -> Result<Seq<Name>, AllocError>
    ensures { IfOk result (λ list. list ≡ flat_map spec.names_of values.now) }
{
    let mut list = Seq::new(alloc);
    for k in 0..values.len() {
        add_name(alloc, values.item(k), &mut list)?;
    }
    Ok(list)
}

fn add_name(alloc: Global, value: &CaseValue, list: &mut Seq<Name>) -> Result<(), AllocError>
    ensures { OnOk result (list.new ≡ list.old ++ spec.names_of value.now) }
{
    if value.input.is_none() {
        list.push(value.name.copy(alloc)?)?;
    }
    Ok(())
}

/// What is told, where so many of the first inputs are ports.
pub(crate) fn told(
    alloc: Global,
    ports: usize,
    values: &Seq<CaseValue>,
) -> Result<Seq<Told>, AllocError>
    ensures { IfOk result (λ list. list ≡ flat_map (spec.told_of ports) values.now) }
{
    let mut list = Seq::new(alloc);
    for k in 0..values.len() {
        add_told(alloc, ports, values.item(k), &mut list)?;
    }
    Ok(list)
}

fn add_told(
    alloc: Global,
    ports: usize,
    value: &CaseValue,
    list: &mut Seq<Told>,
) -> Result<(), AllocError>
    ensures { OnOk result (list.new ≡ list.old ++ spec.told_of ports value.now) }
{
    if is_told(ports, value.input) {
        let name = value.name.copy(alloc)?;
        list.push(Told {
            line: value.line,
            name,
            value: value.value,
        })?;
    }
    Ok(())
}

fn is_told(ports: usize, input: Option<usize>) -> bool
    ensures { result ≡ spec.is_told ports input }
{
    match input {
        None => true,
        Some(input) => !(input < ports),
    }
}

/// The inputs that are fixed besides these.
pub(crate) fn more_fixed(
    alloc: Global,
    before: &Seq<Fixed>,
    values: &Seq<CaseValue>,
) -> Result<Seq<Fixed>, AllocError>
    ensures { IfOk result (λ list. list ≡ spec.more_fixed before.now values.now) }
{
    let mut list = Seq::new(alloc);
    for k in 0..values.len() {
        add_fixed(before, values.item(k), &mut list)?;
    }
    Ok(list)
}

fn add_fixed(
    before: &Seq<Fixed>,
    value: &CaseValue,
    list: &mut Seq<Fixed>,
) -> Result<(), AllocError>
    ensures { OnOk result (list.new ≡ list.old ++ spec.fixed_of (before.now ++ list.old) value.now) }
{
    let Some(input) = value.input else {
        return Ok(());
    };
    if !is_fixed(input, before) && !is_fixed(input, list) {
        list.push(Fixed {
            input,
            value: value.value,
        })?;
    }
    Ok(())
}

fn is_fixed(input: usize, fixed: &Seq<Fixed>) -> bool
    ensures { result ≡ spec.is_fixed input fixed.now }
{
    fixed.as_slice().iter().any(|one| one.input == input)
}
