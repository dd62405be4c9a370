//! Whether two lists of objects are one.
ghost use Rattle.std.specs.Prelude.{◌≡◌};
ghost use Rattle.script_notices.specs.Companions as spec;

use script_types::{Class, Object, Query};
use sdcv_base::{Edge, Seq};

fn is_class(a: Class, b: Class) -> bool
    ensures { result ≡ spec.is_class a b }
{
    match (a, b) {
        (Class::Ports, Class::Ports)
        | (Class::Cells, Class::Cells)
        | (Class::Pins, Class::Pins)
        | (Class::Nets, Class::Nets)
        | (Class::Clocks, Class::Clocks)
        | (Class::Any, Class::Any) => true,
        _ => false,
    }
}

fn is_bool(a: bool, b: bool) -> bool
    ensures { result ≡ spec.is_bool a b }
{
    if a { b } else { !b }
}

/// Whether two edges are one.
pub fn is_edge(a: Edge, b: Edge) -> bool
    ensures { result ≡ spec.is_edge a b }
{
    matches!(
        (a, b),
        (Edge::Any, Edge::Any) | (Edge::Rise, Edge::Rise) | (Edge::Fall, Edge::Fall)
    )
}

/// Whether two queries ask for objects of one class in the same way.
pub fn is_asked(a: &Query, b: &Query) -> bool
    ensures { result ≡ spec.is_asked a.now b.now }
{
    is_class(a.class, b.class) && is_bool(a.hier, b.hier)
}

fn is_query(a: &Query, b: &Query) -> bool
    ensures { result ≡ spec.is_query a.now b.now }
{
    is_asked(a, b) && a.pattern.as_bytes() == b.pattern.as_bytes()
}

fn is_object(a: &Object, b: &Object) -> bool
    ensures { result ≡ spec.is_object a.now b.now }
{
    match (a, b) {
        (Object::Named(a), Object::Named(b)) => is_query(a, b),
        (Object::AllInputs, Object::AllInputs)
        | (Object::AllOutputs, Object::AllOutputs)
        | (Object::AllRegisters, Object::AllRegisters)
        | (Object::AllClocks, Object::AllClocks) => true,
        _ => false,
    }
}

fn are_objects(first: &Seq<Object>, second: &Seq<Object>) -> bool
    ensures { result ≡ spec.are_objects first.now second.now }
{
    if first.len() != second.len() {
        return false;
    }
    for place in 0..first.len() {
        if !is_object(first.item(place), second.item(place)) {
            return false;
        }
    }
    true
}

/// Whether two rows of lists are one.
pub(crate) fn are_lists(first: &Seq<Seq<Object>>, second: &Seq<Seq<Object>>) -> bool
    ensures { result ≡ spec.are_lists first.now second.now }
{
    if first.len() != second.len() {
        return false;
    }
    for place in 0..first.len() {
        if !are_objects(first.item(place), second.item(place)) {
            return false;
        }
    }
    true
}

/// Whether both lists are not given, or both are and are one.
pub(crate) fn are_given(first: &Option<Seq<Object>>, second: &Option<Seq<Object>>) -> bool
    ensures { result ≡ spec.are_given first.now second.now }
{
    match (first, second) {
        (None, None) => true,
        (Some(first), Some(second)) => are_objects(first, second),
        _ => false,
    }
}
