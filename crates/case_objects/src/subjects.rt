//! What two values may be of.
ghost use Rattle.std.specs.Prelude.{◌≡◌, OnOk, IfErr};
ghost use Rattle.net_model.specs.Pins as pins;
ghost use Rattle.case_inputs.specs.Ties as ties;
ghost use Rattle.case_objects.specs.Subjects as spec;
ghost use Rattle.case_objects.specs.Subjects.{AgreeOn};
ghost use Rattle.case_objects.specs.Causes.{IsTwiceOf};
ghost use Rattle.case_objects.specs.Stages.{IsFirst, IsOther, is_other as is_other_of};

use crate::values::CaseValue;
use net_model::PinRef;
use sdcv_base::Seq;
use selected_types::ExpandFault;

/// A data input, by its number, or a load pin and the net that it reads.
#[derive(Clone, Copy, PartialEq, Eq)]
pub enum Subject {
    Input(usize),
    Load(PinRef, usize),
}

/// Refuses two values of a data input or of a load pin.
pub(crate) fn check_subject(values: &Seq<CaseValue>, subject: Subject) -> Result<(), ExpandFault>
    ensures ok { OnOk result (AgreeOn subject values.now) }
    ensures err { IfErr result (IsTwiceOf subject values.now) }
{
    let Some(first) = first_about(values, subject) else {
        return Ok(());
    };
    let once = values.item(first);
    let Some(later) = first_other(values, subject, once.value) else {
        return Ok(());
    };
    Err(ExpandFault::CaseTwice(once.line, values.item(later).line))
}

// The first value of a data input or of a load pin.
fn first_about(values: &Seq<CaseValue>, subject: Subject) -> Option<usize>
    ensures { IsFirst subject values.now result }
{
    for k in 0..values.len() {
        if is_about(values.item(k), subject) {
            return Some(k);
        }
    }
    None
}

// A value of it that is not this one.
fn first_other(values: &Seq<CaseValue>, subject: Subject, bit: bool) -> Option<usize>
    ensures { IsOther subject bit values.now result }
{
    for k in 0..values.len() {
        if is_other(values.item(k), subject, bit) {
            return Some(k);
        }
    }
    None
}

fn is_other(value: &CaseValue, subject: Subject, bit: bool) -> bool
    ensures { result ≡ is_other_of subject bit value.now }
{
    is_about(value, subject) && value.value != bit
}

fn is_about(value: &CaseValue, subject: Subject) -> bool
    ensures { result ≡ spec.is_about subject value.now }
{
    match subject {
        Subject::Input(input) => is_input(input, value.input),
        Subject::Load(pin, net) => value.input.is_none() && is_of(&value.place, pin, net),
    }
}

fn is_input(input: usize, of: Option<usize>) -> bool
    ensures { result ≡ spec.is_input input of }
{
    match of {
        None => false,
        Some(other) => other == input,
    }
}

fn is_of(place: &Seq<PinRef>, pin: PinRef, net: usize) -> bool
    ensures { result ≡ ties.is_of place.now pin net }
{
    has_pin(place, pin) || has_pin(place, PinRef::Net(net))
}

fn has_pin(place: &Seq<PinRef>, pin: PinRef) -> bool
    ensures { result ≡ pins.is_in pin place.now }
{
    place.as_slice().iter().any(|other| same_pin(pin, *other))
}

fn same_pin(a: PinRef, b: PinRef) -> bool
    ensures { result ≡ pins.same_pin a b }
{
    match (a, b) {
        (PinRef::Net(n), PinRef::Net(m)) => n == m,
        (PinRef::GateIn(g, i), PinRef::GateIn(h, j)) => g == h && i == j,
        (PinRef::RegIn(r, i), PinRef::RegIn(q, j)) => r == q && i == j,
        (PinRef::OutPort(o), PinRef::OutPort(q)) => o == q,
        (_, _) => false,
    }
}
