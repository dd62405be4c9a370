//! The sizes that the tool takes.
ghost use Rattle.std.specs.Prelude.{◌<◌, ◌≤◌, MatchOption};
ghost use Rattle.net_model.specs.Netlist.{IsWithinLimits};
ghost use Rattle.net_model.specs.Faults.{Passes, IsAboveLimit};

use crate::netlist::Design;

pub const MOST_NETS: usize = 200_000;

pub const MOST_REGISTERS: usize = 20_000;

pub const MOST_INPUTS: usize = 20_000;

pub const MOST_OUTPUTS: usize = 20_000;

/// The most input pins that one gate or one register may have.
pub const MOST_PINS: usize = 6;

pub const MOST_RESET_CYCLES: usize = 64;

/// The largest multiplier of a multicycle path.
pub const MOST_CYCLES: u8 = 16;

/// The most cycles of lag of a false path.
pub const MOST_LAG: u8 = 8;

/// The most through sets of a claim.
pub const MOST_SETS: usize = 4;

/// The layers of a cycle in which a start comes late: the first, and one for each through set.
pub const LAYERS: usize = MOST_SETS + 1;

/// The most cycles before the one that an induction asks about.
pub const MOST_DEPTH: usize = 64;

/// The limit plus 1, where the count is above the limit.
pub fn above(limit: usize, count: usize) -> Option<usize>
    ensures { MatchOption result (count ≤ limit) (λ n. Passes limit count n) }
{
    if count > limit { Some(limit + 1) } else { None }
}

/// A size of the design above its limit.
pub fn size_above(design: &Design) -> Option<usize>
    ensures { MatchOption result (IsWithinLimits design.now) (IsAboveLimit design.now) }
{
    above(MOST_NETS, design.nets)
        .or(above(MOST_REGISTERS, design.regs.len()))
        .or(above(MOST_INPUTS, design.inputs.len()))
        .or(above(MOST_OUTPUTS, design.outputs.len()))
        .or(above(MOST_RESET_CYCLES, design.reset_len))
}
