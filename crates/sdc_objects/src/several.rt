//! Patterns that name things of several classes.
ghost use Rattle.std.specs.Prelude.{◌≡◌, ◌∷◌, [], ◌&&◌, ◌||◌, IfOk};
ghost use Rattle.sdc_objects.specs.Tables.{IsTablesOf};
ghost use Rattle.sdc_objects.specs.Things as spec;

use crate::found::found_in;
use crate::scopes::Scope;
use crate::things::Place;
use script_types::{Class, Query};
use std::alloc::{AllocError, Global};

/// Whether a pattern outside a `get_` command names things of two of its classes or more.
pub(crate) fn is_several(
    alloc: Global,
    scope: &Scope,
    place: Place,
    query: &Query,
) -> Result<bool, AllocError>
    requires { IsTablesOf scope.now.linked.now scope.now.tables.now }
    ensures { IfOk result (λ several. several ≡ spec.is_several scope.now.linked.now scope.now.script.now place query.now) }
{
    match (query.class, place) {
        (Class::Any, Place::From | Place::To) => is_in_two(alloc, scope, query),
        (Class::Any, Place::Through) => is_through_two(alloc, scope, query),
        (Class::Ports | Class::Cells | Class::Pins | Class::Nets | Class::Clocks, _) => Ok(false),
    }
}

fn is_in_two(alloc: Global, scope: &Scope, query: &Query) -> Result<bool, AllocError>
    requires { IsTablesOf scope.now.linked.now scope.now.tables.now }
    ensures { IfOk result (λ two. two ≡ spec.has_two (spec.kinds_found scope.now.linked.now scope.now.script.now Place.From query.now)) }
{
    let ports = is_found(alloc, scope, query, Class::Ports)?;
    let cells = is_found(alloc, scope, query, Class::Cells)?;
    let pins = is_found(alloc, scope, query, Class::Pins)?;
    let clocks = is_found(alloc, scope, query, Class::Clocks)?;
    Ok(has_two_of_four(ports, cells, pins, clocks))
}

// A port and its net are of one kind.
fn is_through_two(alloc: Global, scope: &Scope, query: &Query) -> Result<bool, AllocError>
    requires { IsTablesOf scope.now.linked.now scope.now.tables.now }
    ensures { IfOk result (λ two. two ≡ spec.has_two (spec.kinds_found scope.now.linked.now scope.now.script.now Place.Through query.now)) }
{
    let pins = is_found(alloc, scope, query, Class::Pins)?;
    let cells = is_found(alloc, scope, query, Class::Cells)?;
    let ports = is_found(alloc, scope, query, Class::Ports)?;
    let nets = is_found(alloc, scope, query, Class::Nets)?;
    Ok(has_two_of_three(pins, cells, ports || nets))
}

fn is_found(alloc: Global, scope: &Scope, query: &Query, class: Class) -> Result<bool, AllocError>
    requires { IsTablesOf scope.now.linked.now scope.now.tables.now }
    ensures { IfOk result (λ is_found. is_found ≡ spec.is_found scope.now.linked.now scope.now.script.now query.now class) }
{
    Ok(found_in(alloc, scope, query, class)?.len() > 0)
}

fn has_two_of_four(a: bool, b: bool, c: bool, d: bool) -> bool
    ensures { result ≡ spec.has_two (a ∷ b ∷ c ∷ d ∷ []) }
{
    if a {
        b || c || d
    } else {
        has_two_of_three(b, c, d)
    }
}

fn has_two_of_three(a: bool, b: bool, c: bool) -> bool
    ensures { result ≡ spec.has_two (a ∷ b ∷ c ∷ []) }
{
    if a { b || c } else { b && c }
}
