//! Values that may be unknown.
ghost use Rattle.std.specs.Prelude.{◌≡◌, ◌<◌, ◌≤◌, ◌↔◌, ℕ, Bool};
ghost use Rattle.net_model.specs.Form.{Form, value, IsOver};
ghost use Rattle.net_model.specs.Args.{arg_at};
ghost use Rattle.net_model.specs.Ternary.{tern_of, IsCommonValue, StaysKnown};
ghost use Rattle.net_model.specs.Splitting.{join, common, tern_value};
ghost use Rattle.net_model.specs.Completions.{tern_on_bits, tern_agrees};

use crate::arguments::Args;
use crate::functions::Func;
use crate::values::Value;

/// A bit, or unknown: either bit, perhaps one after the other (Eichelberger's third value).
#[derive(Debug, Clone, Copy, PartialEq, Eq)]
pub enum Tern {
    Zero,
    One,
    Unknown,
}

impl Tern {
    /// The value of both, or unknown where they differ.
    pub fn join(self, other: Tern) -> Tern
        ensures { result ≡ join self other }
    {
        match (self, other) {
            (Tern::Zero, Tern::Zero) => Tern::Zero,
            (Tern::One, Tern::One) => Tern::One,
            _ => Tern::Unknown,
        }
    }
}

impl Value for Tern {
    ghost bit_value = { tern_of };

    ghost applied = { tern_value };

    ghost on_bits = { tern_on_bits };

    ghost reads_places = { tern_agrees };

    fn of_bit(bit: bool) -> Tern {
        if bit { Tern::One } else { Tern::Zero }
    }

    /// The common value of all completions of the unknown arguments, else unknown.
    fn apply(func: &Func, args: &Args<Tern>) -> Tern
        requires { IsOver 7 func.now }
        ensures value { result ≡ tern_value func.now (arg_at args.now) }
        ensures common { IsCommonValue (value func.now) (arg_at args.now) result }
        // A known value stays where arguments become known.
        ensures stays { StaysKnown (value func.now) (arg_at args.now) result }
    {
        common_of(func, args, 7, Args::of(false))
    }
}

/// The common value over all completions of the first places.
fn common_of(func: &Func, args: &Args<Tern>, count: usize, bits: Args<bool>) -> Tern
    requires over { IsOver 7 func.now }
    requires few { count ≤ 7 }
    ensures { result ≡ common count (value func.now) (arg_at args.now) (arg_at bits) }
{
    if count == 0 {
        return Tern::of_bit(bool::apply(func, &bits));
    }
    let place = count - 1;
    let mut low = bits;
    low.set(place, false);
    let mut high = bits;
    high.set(place, true);
    match args.at(place) {
        Tern::Zero => common_of(func, args, place, low),
        Tern::One => common_of(func, args, place, high),
        Tern::Unknown => {
            let low = common_of(func, args, place, low);
            let high = common_of(func, args, place, high);
            low.join(high)
        }
    }
}
