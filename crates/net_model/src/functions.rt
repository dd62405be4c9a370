//! Boolean functions of numbered places.
ghost use Rattle.std.specs.Prelude.{◌≡◌, IfOk};
ghost use Rattle.net_model.specs.Form.{ZeroForm, OneForm, PinForm, NotForm, AndForm, OrForm, XorForm};

use std::alloc::{AllocError, Global};
use std::marker::Model;

/// A Boolean function of places, as a tree.
///
/// Contracts see the tree itself, and not the boxes that hold its parts.
#[cycle(function)]
#[derive(Drop)]
pub struct Func {
    pub node: Node,
}

/// The operator at the root of a function, with its operands.
#[cycle(function)]
#[derive(Drop)]
pub enum Node {
    Zero,
    One,
    /// The value of a place: of an entry of a gate's or a register's `ins`, or of a register's own bit, whose place is
    /// the one after the last entry.
    Pin(usize),
    Not(Box<Func>),
    And(Box<Func>, Box<Func>),
    Or(Box<Func>, Box<Func>),
    Xor(Box<Func>, Box<Func>),
}

impl Model for Func {
    ghost use Rattle.net_model.specs.Form.{Form, node_count};
    ghost use Rattle.net_model.specs.Code.{coded_form};
    ghost use Rattle.std.proofs.Common.{arith};

    ghost Value = { Form };

    ghost coded = { coded_form };

    ghost use Rattle.net_model.specs.Unboxed.{form_of};

    ghost view = { λ f. form_of f.node };

    ghost size = { node_count };

    ghost size_decreases = { λ a h. Prim.grind arith };
}

impl Func {
    /// The function that is 0 everywhere.
    pub fn zero() -> Func
        ensures { result ≡ ZeroForm }
    {
        Func { node: Node::Zero }
    }

    /// The function that is 1 everywhere.
    pub fn one() -> Func
        ensures { result ≡ OneForm }
    {
        Func { node: Node::One }
    }

    /// The value of a place.
    pub fn pin(place: usize) -> Func
        ensures { result ≡ PinForm place }
    {
        Func {
            node: Node::Pin(place),
        }
    }

    pub fn not(alloc: Global, f: Func) -> Result<Func, AllocError>
        ensures { IfOk result (λ r. r ≡ NotForm f) }
    {
        let f = Box::new(alloc, f)?;
        Ok(Func { node: Node::Not(f) })
    }

    pub fn and(alloc: Global, f: Func, g: Func) -> Result<Func, AllocError>
        ensures { IfOk result (λ r. r ≡ AndForm f g) }
    {
        let f = Box::new(alloc, f)?;
        let g = Box::new(alloc, g)?;
        Ok(Func {
            node: Node::And(f, g),
        })
    }

    pub fn or(alloc: Global, f: Func, g: Func) -> Result<Func, AllocError>
        ensures { IfOk result (λ r. r ≡ OrForm f g) }
    {
        let f = Box::new(alloc, f)?;
        let g = Box::new(alloc, g)?;
        Ok(Func {
            node: Node::Or(f, g),
        })
    }

    /// The exclusive or of two functions.
    pub fn xor(alloc: Global, f: Func, g: Func) -> Result<Func, AllocError>
        ensures { IfOk result (λ r. r ≡ XorForm f g) }
    {
        let f = Box::new(alloc, f)?;
        let g = Box::new(alloc, g)?;
        Ok(Func {
            node: Node::Xor(f, g),
        })
    }

    /// An equal function in memory of its own.
    pub fn copy(&self, alloc: Global) -> Result<Func, AllocError>
        ensures { IfOk result (λ f. f ≡ self.now) }
    {
        match &self.node {
            Node::Zero => Ok(Func::zero()),
            Node::One => Ok(Func::one()),
            Node::Pin(place) => Ok(Func::pin(*place)),
            Node::Not(f) => Func::not(alloc, f.copy(alloc)?),
            Node::And(f, g) => Func::and(alloc, f.copy(alloc)?, g.copy(alloc)?),
            Node::Or(f, g) => Func::or(alloc, f.copy(alloc)?, g.copy(alloc)?),
            Node::Xor(f, g) => Func::xor(alloc, f.copy(alloc)?, g.copy(alloc)?),
        }
    }
}
