//! Sixty-four bits at once.
ghost use Rattle.std.specs.Prelude.{◌≡◌, ◌<◌, ◌&&◌, ◌||◌, not, ℕ, Bool};
ghost use Rattle.net_model.specs.Args.{arg_at};
ghost use Rattle.net_model.specs.Form.{Form, value, xor, IsOver};
ghost use Rattle.net_model.specs.LaneBits.{lane, in_each_lane, lanes_value, IsInEachLane};
ghost use Rattle.net_model.specs.LaneLaws.{lanes_on_bits, lanes_agree_at};

use crate::arguments::Args;
use crate::functions::{Func, Node};
use crate::values::Value;

/// Sixty-four independent bits: lane i, from 0 to 63, is bit i of the number.
#[derive(Debug, Clone, Copy, PartialEq, Eq)]
pub struct Lanes(pub u64);

impl Lanes {
    /// The bit of a lane.
    pub fn lane(self, i: usize) -> bool
        requires { i < 64 }
        ensures { result ≡ lane self i }
    {
        (self.0 >> i) & 1 == 1
    }

    /// The complement of each lane.
    pub fn complement(self) -> Lanes
        ensures { (i : ℕ) → i < 64 → lane result i ≡ not (lane self i) }
    {
        Lanes(!self.0)
    }

    fn and(self, other: Lanes) -> Lanes
        ensures { (i : ℕ) → i < 64 → lane result i ≡ (lane self i && lane other i) }
    {
        Lanes(self.0 & other.0)
    }

    fn or(self, other: Lanes) -> Lanes
        ensures { (i : ℕ) → i < 64 → lane result i ≡ (lane self i || lane other i) }
    {
        Lanes(self.0 | other.0)
    }

    fn xor(self, other: Lanes) -> Lanes
        ensures { (i : ℕ) → i < 64 → lane result i ≡ xor (lane self i) (lane other i) }
    {
        Lanes(self.0 ^ other.0)
    }
}

impl Value for Lanes {
    ghost bit_value = { in_each_lane };

    ghost applied = { lanes_value };

    ghost on_bits = { lanes_on_bits };

    ghost reads_places = { lanes_agree_at };

    /// The bit in each lane.
    fn of_bit(bit: bool) -> Lanes
        ensures value { result ≡ in_each_lane bit }
        ensures lanes { (i : ℕ) → i < 64 → lane result i ≡ bit }
    {
        Lanes(if bit { u64::MAX } else { 0 })
    }

    /// In each lane the function's value on that lane of the arguments.
    fn apply(func: &Func, args: &Args<Lanes>) -> Lanes
        requires { IsOver 7 func.now }
        ensures value { result ≡ lanes_value func.now (arg_at args.now) }
        ensures lanes { IsInEachLane (value func.now) (arg_at args.now) result }
    {
        match &func.node {
            Node::Zero => Lanes::of_bit(false),
            Node::One => Lanes::of_bit(true),
            Node::Pin(place) => args.at(*place),
            Node::Not(f) => Lanes::apply(f, args).complement(),
            Node::And(f, g) => Lanes::apply(f, args).and(Lanes::apply(g, args)),
            Node::Or(f, g) => Lanes::apply(f, args).or(Lanes::apply(g, args)),
            Node::Xor(f, g) => Lanes::apply(f, args).xor(Lanes::apply(g, args)),
        }
    }
}
