//! What a limit counts.
ghost use Rattle.std.specs.Prelude.{Some};
ghost use Rattle.sdcv_base.specs.Limits.{limit_text};

use std::fmt;

/// What is counted where a design or a selection is too large.
#[derive(Clone, Copy, Debug, PartialEq, Eq)]
pub enum LimitName {
    Nets,
    Registers,
    Inputs,
    Outputs,
    Instances,
    Pins,
    Through,
    Pairs,
    Judged,
    Hierarchy,
}

impl fmt::Display for LimitName {
    ghost output = { λ w. Some (limit_text w) };

    fn fmt<W: fmt::Write>(&self, f: &mut fmt::Formatter<W>) -> fmt::Result {
        f.write_str(match self {
            LimitName::Nets => "nets",
            LimitName::Registers => "registers",
            LimitName::Inputs => "inputs",
            LimitName::Outputs => "outputs",
            LimitName::Instances => "instances",
            LimitName::Pins => "pins",
            LimitName::Through => "through",
            LimitName::Pairs => "pairs",
            LimitName::Judged => "judged",
            LimitName::Hierarchy => "hierarchy",
        })
    }
}
