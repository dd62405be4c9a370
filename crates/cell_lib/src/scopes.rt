//! What names stand for in a cell.
ghost use Rattle.std.specs.Prelude.{◌≡◌, IfOk, IfSome, Some};
ghost use Rattle.std.specs.Option.{option_copied};
ghost use Rattle.net_model.specs.Form.{IsOver};
ghost use Rattle.cell_lib.specs.Scopes.{meaning, resolved, reach, state_meaning};

use lib_func::{Expr, Term};
use net_model::Func;
use sdcv_base::Name;
use std::alloc::{AllocError, Global};
use texts::NameTable;

/// The names of a flop's state and of its complement.
#[derive(Drop)]
pub struct States {
    pub state: Name,
    pub complement: Name,
}

/// What a name of the state stands for, whose place is `own`.
fn state_func(
    alloc: Global,
    name: &Name,
    own: usize,
    names: &States,
) -> Result<Option<Func>, AllocError>
    ensures { IfOk result (λ found. found ≡ state_meaning own (Some names.now) name.now) }
{
    if *name == names.state {
        return Ok(Some(Func::pin(own)));
    }
    if *name == names.complement {
        return Ok(Some(Func::not(alloc, Func::pin(own))?));
    }
    Ok(None)
}

/// What a name stands for.
fn name_func(
    alloc: Global,
    name: &Name,
    inputs: &NameTable,
    states: Option<&States>,
) -> Result<Option<Func>, AllocError>
    ensures value { IfOk result (λ found. found ≡ meaning inputs.now (option_copied states.entry) name.now) }
    ensures over { IfOk result (λ found. IfSome found (IsOver (reach inputs.now (option_copied states.entry)))) }
{
    // the number of the inputs, where it is none of them
    let place = inputs.place(name);
    if inputs.contains(name) {
        return Ok(Some(Func::pin(place)));
    }
    match states {
        None => Ok(None),
        Some(names) => state_func(alloc, name, place, names),
    }
}

/// The function of places that an expression is, and `None` exactly where it has a name that stands for nothing.
///
/// A name stands for its place among the inputs. Where the names of a flop's state are given, the state stands for the
/// place after the last input, and the complement for its inverse. The work is linear in the expression's nodes and in
/// the bytes of its names, whatever the number of the inputs. It recurses as deep as the expression is high,
/// which is 256 at most for one that was read.
pub fn resolve(
    alloc: Global,
    expr: &Expr,
    inputs: &NameTable,
    states: Option<&States>,
) -> Result<Option<Func>, AllocError>
    ensures value { IfOk result (λ found. found ≡ resolved (meaning inputs.now (option_copied states.entry)) expr.now) }
    ensures over { IfOk result (λ found. IfSome found (IsOver (reach inputs.now (option_copied states.entry)))) }
{
    match &expr.root {
        Term::Zero => Ok(Some(Func::zero())),
        Term::One => Ok(Some(Func::one())),
        Term::Name(name) => name_func(alloc, name, inputs, states),
        Term::Not(f) => {
            let Some(f) = resolve(alloc, f, inputs, states)? else {
                return Ok(None);
            };
            Ok(Some(Func::not(alloc, f)?))
        }
        Term::And(f, g) => {
            let Some(f) = resolve(alloc, f, inputs, states)? else {
                return Ok(None);
            };
            let Some(g) = resolve(alloc, g, inputs, states)? else {
                return Ok(None);
            };
            Ok(Some(Func::and(alloc, f, g)?))
        }
        Term::Or(f, g) => {
            let Some(f) = resolve(alloc, f, inputs, states)? else {
                return Ok(None);
            };
            let Some(g) = resolve(alloc, g, inputs, states)? else {
                return Ok(None);
            };
            Ok(Some(Func::or(alloc, f, g)?))
        }
        Term::Xor(f, g) => {
            let Some(f) = resolve(alloc, f, inputs, states)? else {
                return Ok(None);
            };
            let Some(g) = resolve(alloc, g, inputs, states)? else {
                return Ok(None);
            };
            Ok(Some(Func::xor(alloc, f, g)?))
        }
    }
}
