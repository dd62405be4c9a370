//! Values of words and of variables.
ghost use Rattle.std.specs.Prelude.{◌≡◌, IfOk};

use crate::loans::Loan;
use script_types::{Object, copy_objects};
use sdcv_base::{Name, Seq};
use std::alloc::{AllocError, Global};

/// What a word or a variable stands for.
#[derive(Drop)]
pub enum Value {
    Text(Name),
    Objects(Seq<Object>),
}

/// What a word of a command says. The value of a variable that a word is alone is lent, and not copied.
#[derive(Drop)]
pub struct Said<'a> {
    /// Where the word begins in the whole text, from 0.
    pub offset: usize,
    pub value: Loan<'a, Value>,
}

impl Value {
    /// An equal value.
    pub fn copy(&self, alloc: Global) -> Result<Value, AllocError>
        ensures { IfOk result (λ v. v ≡ self.now) }
    {
        Ok(match self {
            Value::Text(text) => Value::Text(text.copy(alloc)?),
            Value::Objects(objects) => Value::Objects(copy_objects(alloc, objects.as_slice())?),
        })
    }
}
