//! The objects that a command names.
ghost use Rattle.std.specs.Prelude.{◌≡◌, IfOk};

use sdcv_base::{Name, Seq};
use std::alloc::{AllocError, Global};

/// The objects that a pattern may match. `Any` is a pattern outside a `get_` command.
#[derive(Clone, Copy, PartialEq, Eq)]
pub enum Class {
    Ports,
    Cells,
    Pins,
    Nets,
    Clocks,
    Any,
}

/// A pattern and the class of what it matches; `hier` lets it match below any part of a name.
pub struct Query {
    pub class: Class,
    pub hier: bool,
    pub pattern: Name,
}

// Each type here and of scripts is let go by a call of its own: whoever owns one proves nothing of what it is made of.
impl Drop for Query {
    fn drop(self) {
        let Query {
            class: _class,
            hier: _hier,
            pattern: _pattern,
        } = self;
    }
}

pub enum Object {
    Named(Query),
    AllInputs,
    AllOutputs,
    AllRegisters,
    AllClocks,
}

impl Drop for Object {
    fn drop(self) {
        match self {
            Object::Named(_query) => {}
            Object::AllInputs | Object::AllOutputs | Object::AllRegisters | Object::AllClocks => {}
        }
    }
}

impl Query {
    /// An equal query.
    pub fn copy(&self, alloc: Global) -> Result<Query, AllocError>
        ensures { IfOk result (λ q. q ≡ self.now) }
    {
        Ok(Query {
            class: self.class,
            hier: self.hier,
            pattern: self.pattern.copy(alloc)?,
        })
    }
}

impl Object {
    /// An equal object.
    pub fn copy(&self, alloc: Global) -> Result<Object, AllocError>
        ensures { IfOk result (λ o. o ≡ self.now) }
    {
        Ok(match self {
            Object::Named(query) => Object::Named(query.copy(alloc)?),
            Object::AllInputs => Object::AllInputs,
            Object::AllOutputs => Object::AllOutputs,
            Object::AllRegisters => Object::AllRegisters,
            Object::AllClocks => Object::AllClocks,
        })
    }
}

/// Equal objects.
pub fn copy_objects(alloc: Global, objects: &[Object]) -> Result<Seq<Object>, AllocError>
    ensures { IfOk result (λ s. s ≡ objects.now) }
{
    let mut copies = Seq::new(alloc);
    for object in objects {
        copies.push(object.copy(alloc)?)?;
    }
    Ok(copies)
}
