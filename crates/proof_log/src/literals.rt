//! Variables and their complements.
ghost use Rattle.std.specs.Prelude.{◌≡◌, ◌+◌, ◌*◌, ◌^◌, ◌<◌, ◌≤◌, IsTrue, ◌↔◌, false, true};
ghost use Rattle.proof_log.specs.Literals.{literal, lit_var, lit_positive, negated};

use std::marker::Model;

/// A variable, numbered from 1, or its complement.
///
/// Contracts see the number 2 * variable, plus 1 for a complement. So literals in ascending order
/// stand by their variables.
#[derive(Clone, Copy, Debug, PartialEq, Eq)]
pub struct Lit(u32);

impl Model for Lit {
    ghost use Rattle.std.specs.Prelude.{ℕ, ◌≤◌};

    ghost Value = { ℕ };

    ghost view = { λ l. l.0 };

    ghost invariant = { λ l. 2 ≤ l.0 };

    ghost inverse = { λ n. record { 0 = n } };
}

impl Lit {
    pub fn new(var: u32, positive: bool) -> Lit
        requires from { 1 ≤ var }
        requires to { var < 2 ^ 31 }
        ensures { result ≡ literal var positive }
    {
        if positive {
            Lit(2 * var)
        } else {
            Lit(2 * var + 1)
        }
    }

    pub fn var(&self) -> u32
        ensures value { result ≡ lit_var self.now }
        ensures from { 1 ≤ result }
        ensures to { result < 2 ^ 31 }
    {
        self.0 / 2
    }

    pub fn positive(&self) -> bool
        ensures { result ≡ lit_positive self.now }
    {
        self.0 % 2 == 0
    }

    /// The complement.
    pub fn negated(&self) -> Lit
        ensures { result ≡ negated self.now }
    {
        if self.0 % 2 == 0 {
            Lit(self.0 + 1)
        } else {
            Lit(self.0 - 1)
        }
    }

    /// The literal's own number, by which a table of literals is indexed.
    pub fn index(&self) -> usize
        ensures value { result ≡ self.now }
        ensures small { self.now < 2 ^ 32 }
    {
        self.0 as usize
    }
}

/// The positive literal of variable 1.
impl Default for Lit {
    ghost is_default = { λ l. l ≡ literal 1 true };

    fn default() -> Lit {
        Lit::new(1, true)
    }
}
