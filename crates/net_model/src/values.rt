//! Kinds of values that nets may have, and what a function gives on them.
ghost use Rattle.std.specs.Prelude.{◌≡◌, ◌<◌, ℕ, Bool};
ghost use Rattle.net_model.specs.Form.{Form, value, IsOver};
ghost use Rattle.net_model.specs.FormLaws.{value_agrees};
ghost use Rattle.net_model.specs.Args.{arg_at};

use crate::arguments::Args;
use crate::functions::{Func, Node};

/// A kind of value by which functions of places can be evaluated.
pub trait Value: Copy {
    /// The value that stands for a bit.
    ghost bit_value: { Bool → Self };

    /// What a function gives on the values of its places.
    ghost applied: { Form → (ℕ → Self) → Self };

    /// The value of a bit.
    fn of_bit(bit: bool) -> Self
        ensures { result ≡ bit_value bit };

    /// The value of a function whose places are all below 7.
    fn apply(func: &Func, args: &Args<Self>) -> Self
        requires { IsOver 7 func.now }
        ensures { result ≡ applied func.now (arg_at args.now) };

    /// On the values of bits it is the value of the function's bit.
    ghost on_bits: { (f : Form) (bits : ℕ → Bool) → IsOver 7 f → applied f (λ i. bit_value (bits i)) ≡ bit_value (value f bits) };

    /// It depends on the places that the function reads alone.
    ghost reads_places: { (f : Form) (n : ℕ) (a b : ℕ → Self) → IsOver n f → ((i : ℕ) → i < n → a i ≡ b i) → applied f a ≡ applied f b };
}

impl Value for bool {
    ghost use Rattle.std.specs.Prelude.{refl};

    ghost bit_value = { λ b. b };

    ghost applied = { value };

    ghost on_bits = { λ f bits over. refl };

    ghost reads_places = { value_agrees };

    fn of_bit(bit: bool) -> bool {
        bit
    }

    fn apply(func: &Func, args: &Args<bool>) -> bool {
        match &func.node {
            Node::Zero => false,
            Node::One => true,
            Node::Pin(place) => args.at(*place),
            Node::Not(f) => !bool::apply(f, args),
            Node::And(f, g) => bool::apply(f, args) & bool::apply(g, args),
            Node::Or(f, g) => bool::apply(f, args) | bool::apply(g, args),
            Node::Xor(f, g) => bool::apply(f, args) ^ bool::apply(g, args),
        }
    }
}
