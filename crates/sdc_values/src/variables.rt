//! Variables.
ghost use Rattle.std.specs.Prelude.{◌≡◌, [], OnOk, OnErr};
ghost use Rattle.std.specs.Option.{option_copied};
ghost use Rattle.sdc_values.specs.Variables as spec;

use crate::values::Value;
use indexmap::IndexMap;
use sdcv_base::Name;
use std::alloc::{AllocError, Global};
use std::marker::Model;

/// The variables that are set, and their values. A look-up takes the time of one hash.
#[derive(Drop)]
pub struct Variables {
    values: IndexMap<Name, Value>,
}

impl Model for Variables {
    ghost use Rattle.sdc_values.specs.Variables.{Vars};

    ghost Value = { Vars };

    ghost view = { λ v. v.values.entries };
}

impl Variables {
    /// No variable is set.
    pub fn new(alloc: Global) -> Variables
        ensures { result ≡ [] }
    {
        Variables {
            values: IndexMap::new(alloc),
        }
    }

    /// The value of this variable, and `None` exactly where it is not set.
    pub fn value(&self, name: &Name) -> Option<&Value>
        ensures { option_copied result ≡ spec.value_of name.now self.now }
    {
        self.values.get(name)
    }

    /// Sets a variable, whether it is set or not.
    pub fn set(&mut self, name: Name, value: Value) -> Result<(), AllocError>
        ensures ok { OnOk result (self.new ≡ spec.with_value self.old name value) }
        ensures err { OnErr result (self.new ≡ self.old) }
    {
        self.values.insert(name, value)?;
        Ok(())
    }
}
