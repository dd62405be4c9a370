//! The places of things, and the data inputs whose nets they are.
ghost use Rattle.std.specs.Prelude.{◌≡◌, ◌↔◌, false, not, All, IfOk, IsTrue};
ghost use Rattle.sdc_objects.specs.Tables.{IsTablesOf};
ghost use Rattle.case_objects.specs.declared.spots.Spot.{Spot as SpotRecord};
ghost use Rattle.case_objects.specs.Values as spec;

use crate::spots::Spot;
use net_model::{Design, Edge, PinRef};
use sdc_objects::{Column, Scope};
use sdcv_base::Seq;
use std::alloc::{AllocError, Global};

/// What a thing stands for in through, and nothing where it is dropped there.
pub(crate) fn place_of(alloc: Global, scope: &Scope, spot: &Spot) -> Result<Seq<PinRef>, AllocError>
    requires { IsTablesOf scope.now.linked.now scope.now.tables.now }
    ensures { IfOk result (λ place. place ≡ spec.place_of scope.now.linked.now spot.now) }
{
    let mut place = Seq::new(alloc);
    PinRef::add(alloc, scope, Edge::Any, spot.thing, &mut place)?;
    Ok(place)
}

fn has_place(alloc: Global, scope: &Scope, spot: &Spot) -> Result<bool, AllocError>
    requires { IsTablesOf scope.now.linked.now scope.now.tables.now }
    ensures { IfOk result (λ has. has ≡ not (spec.has_no_place scope.now.linked.now spot.now)) }
{
    let mut place = Seq::new(alloc);
    PinRef::add(alloc, scope, Edge::Any, spot.thing, &mut place)
}

/// Whether none of these things is dropped in through.
pub(crate) fn have_places(
    alloc: Global,
    scope: &Scope,
    spots: &Seq<Spot>,
) -> Result<bool, AllocError>
    requires { IsTablesOf scope.now.linked.now scope.now.tables.now }
    ensures { IfOk result (λ have. IsTrue have ↔ All (λ (s : SpotRecord). spec.has_no_place scope.now.linked.now s ≡ false) spots.now) }
{
    for k in 0..spots.len() {
        if !has_place(alloc, scope, spots.item(k))? {
            return Ok(false);
        }
    }
    Ok(true)
}

/// The data input whose net a place is.
pub(crate) fn input_at(design: &Design, place: &Seq<PinRef>) -> Option<usize>
    ensures { result ≡ spec.input_at design.now place.now }
{
    match sole_net(place) {
        None => None,
        Some(net) => number_of(net, &design.inputs),
    }
}

fn sole_net(place: &Seq<PinRef>) -> Option<usize>
    ensures { result ≡ spec.sole_net place.now }
{
    if place.len() != 1 {
        return None;
    }
    match place.at(0) {
        PinRef::Net(net) => Some(net),
        PinRef::GateIn(_, _) | PinRef::RegIn(_, _) | PinRef::OutPort(_) => None,
    }
}

fn number_of(net: usize, nets: &Seq<usize>) -> Option<usize>
    ensures { result ≡ spec.number_of net nets.now }
{
    for k in 0..nets.len() {
        if nets.at(k) == net {
            return Some(k);
        }
    }
    None
}
