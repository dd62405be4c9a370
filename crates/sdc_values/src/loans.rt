//! Values that are lent from where they are kept, or kept themselves.
ghost use Rattle.std.specs.Prelude.{◌≡◌};
ghost use Rattle.std.specs.Cow.{cow_value};

use std::borrow::Cow;
use std::marker::Model;

/// A value that is lent, or that is kept here. Contracts see the value alone.
#[derive(Drop)]
pub struct Loan<'a, T> {
    held: Cow<'a, T>,
}

impl<'a, T> Model for Loan<'a, T> {
    ghost use Rattle.std.specs.Cow.{cow_value};

    ghost Value = { T };

    ghost view = { λ l. cow_value l.held };
}

impl<'a, T> Loan<'a, T> {
    /// Lends a value, which is not copied.
    pub fn lent(value: &'a T) -> Loan<'a, T>
        ensures { result ≡ value.entry.now }
    {
        Loan {
            held: Cow::Borrowed(value),
        }
    }

    /// Keeps a value.
    pub fn own(value: T) -> Loan<'a, T>
        ensures { result ≡ value }
    {
        Loan {
            held: Cow::Owned(value),
        }
    }

    pub fn get(&self) -> &T
        ensures { result.now ≡ self.now }
    {
        &*self.held
    }

    /// The value, lent or kept as it was here.
    pub fn into_held(self) -> Cow<'a, T>
        ensures { cow_value result ≡ self.entry }
    {
        let Loan { held } = self;
        held
    }
}
