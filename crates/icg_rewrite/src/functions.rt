//! Functions with a new place before the last.
ghost use Rattle.std.specs.Prelude.{◌≡◌, ◌+◌, ◌≤◌, IfOk, option_map};
ghost use Rattle.net_model.specs.Form.{IsOver};
ghost use Rattle.net_model.specs.Netlist.{IsOptionOver};
ghost use Rattle.icg_rewrite.specs.Rewritten.{raised, next_or_own};

use net_model::{Func, Node};
use std::alloc::{AllocError, Global};

/// The function with its places from `place` on one higher.
pub(crate) fn raised(alloc: Global, func: &Func, place: usize) -> Result<Func, AllocError>
    requires over { IsOver (place + 1) func.now }
    requires few { place ≤ 6 }
    ensures { IfOk result (λ f. f ≡ raised place func.now) }
{
    match &func.node {
        Node::Zero => Ok(Func::zero()),
        Node::One => Ok(Func::one()),
        Node::Pin(i) if *i < place => Ok(Func::pin(*i)),
        Node::Pin(i) => Ok(Func::pin(*i + 1)),
        Node::Not(f) => Func::not(alloc, raised(alloc, f, place)?),
        Node::And(f, g) => Func::and(alloc, raised(alloc, f, place)?, raised(alloc, g, place)?),
        Node::Or(f, g) => Func::or(alloc, raised(alloc, f, place)?, raised(alloc, g, place)?),
        Node::Xor(f, g) => Func::xor(alloc, raised(alloc, f, place)?, raised(alloc, g, place)?),
    }
}

/// The same of a control, if there is one.
pub(crate) fn raised_if_any(
    alloc: Global,
    control: &Option<Func>,
    place: usize,
) -> Result<Option<Func>, AllocError>
    requires over { IsOptionOver (place + 1) control.now }
    requires few { place ≤ 6 }
    ensures { IfOk result (λ f. f ≡ option_map (raised place) control.now) }
{
    match control {
        None => Ok(None),
        Some(func) => Ok(Some(raised(alloc, func, place)?)),
    }
}

/// An equal control, if there is one.
pub(crate) fn copy_if_any(alloc: Global, control: &Option<Func>) -> Result<Option<Func>, AllocError>
    ensures { IfOk result (λ f. f ≡ control.now) }
{
    match control {
        None => Ok(None),
        Some(func) => Ok(Some(func.copy(alloc)?)),
    }
}

/// The next state where the enable is 1, and else the own bit. The enable is read at `place`, and the own bit after it.
pub(crate) fn next_or_own(alloc: Global, next: &Func, place: usize) -> Result<Func, AllocError>
    requires over { IsOver (place + 1) next.now }
    requires few { place ≤ 6 }
    ensures { IfOk result (λ f. f ≡ next_or_own place next.now) }
{
    let open = Func::and(alloc, Func::pin(place), raised(alloc, next, place)?)?;
    let closed = Func::not(alloc, Func::pin(place))?;
    let held = Func::and(alloc, closed, Func::pin(place + 1))?;
    Func::or(alloc, open, held)
}
