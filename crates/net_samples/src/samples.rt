//! Small designs.
use crate::parts::Form::{And, AndOr, AndOrNot, Choice, Not, One, Or, Pin, Xor};
use crate::parts::Out::{Q, Qn};
use crate::parts::Part::{Drives, Holds, Nets, Outputs, Reset, Zero};
use crate::parts::{Controls, Part};

const FREE: Controls = Controls(None, None, true);

// A clear by pin 1.
const CLEARED: Controls = Controls(Some(Pin(1)), None, true);

const CLEARED_LOW: Controls = Controls(Some(Not(1)), None, true);

// A clear by pin 0 and a preset by pin 1.
const PRESET_WINS: Controls = Controls(Some(Pin(0)), Some(Pin(1)), true);

// A clear where pin 1 is 0, and a preset where pin 2 is 1.
const CLEAR_WINS: Controls = Controls(Some(Not(1)), Some(Pin(2)), false);

/// Register 0 takes the input, and register 1 takes register 0.
pub const TWO: &[Part] = &[
    Nets(3, &[0]),
    Holds(Pin(0), FREE, &[0], &[Q(1)]),
    Holds(Pin(0), FREE, &[1], &[Q(2)]),
];

/// The same with a clear that is active for one cycle.
pub const RESET: &[Part] = &[
    Nets(4, &[0, 1]),
    Reset(1, true),
    Holds(Pin(0), CLEARED, &[0, 1], &[Q(2)]),
    Holds(Pin(0), CLEARED, &[2, 1], &[Q(3)]),
];

/// Inputs rst and d, nets 0 and 1. Register 0 takes d and register 1 takes register 0; both are cleared by rst, which is
/// active at 1 for one cycle.
pub const RESET_FIRST: &[Part] = &[
    Nets(4, &[0, 1]),
    Outputs(&[3]),
    Reset(0, true),
    Holds(Pin(0), CLEARED, &[1, 0], &[Q(2)]),
    Holds(Pin(0), CLEARED, &[2, 0], &[Q(3)]),
];

/// A port that shows a conjunction of two inputs, unless a third one is 1, which is 0.
pub const PORTS: &[Part] = &[
    Nets(4, &[0, 1, 2]),
    Zero(2),
    Outputs(&[3]),
    Drives(AndOr(0, 1, 2), &[0, 1, 2], 3),
];

/// Register 1 takes a conjunction of both outputs of register 0, which is 0.
pub const BOTH: &[Part] = &[
    Nets(5, &[0]),
    Drives(And(0, 1), &[1, 2], 3),
    Holds(Pin(0), FREE, &[0], &[Q(1), Qn(2)]),
    Holds(Pin(0), FREE, &[3], &[Q(4)]),
];

/// Register 1 is cleared by register 0, and preset by input 1, also where both are 1.
pub const CLEAR: &[Part] = &[
    Nets(5, &[0, 1, 2]),
    Holds(Pin(0), FREE, &[0], &[Q(3)]),
    Holds(Pin(2), PRESET_WINS, &[3, 1, 2], &[Q(4)]),
];

/// Register 1 takes register 0 where input 1 is 1, and else keeps its bit.
pub const KEEPS: &[Part] = &[
    Nets(4, &[0, 1]),
    Holds(Pin(0), FREE, &[0], &[Q(2)]),
    Holds(Choice(0, 2, 1), FREE, &[2, 1], &[Q(3)]),
];

/// A register that changes where the input is 1.
pub const FLIPS: &[Part] = &[Nets(2, &[0]), Holds(Xor(0, 1), FREE, &[0, 1], &[Q(1)])];

/// Register 1 takes input 1, chosen by register 0 from two pins, by four gates.
pub const GATES: &[Part] = &[
    Nets(8, &[0, 1]),
    Drives(Not(0), &[2], 3),
    Drives(And(0, 1), &[1, 2], 4),
    Drives(And(0, 1), &[1, 3], 5),
    Drives(Or(0, 1), &[4, 5], 6),
    Holds(Pin(0), FREE, &[0], &[Q(2)]),
    Holds(Pin(0), FREE, &[6], &[Q(7)]),
];

/// The same in one cell.
pub const CELL: &[Part] = &[
    Nets(5, &[0, 1]),
    Drives(Choice(0, 1, 2), &[1, 1, 2], 3),
    Holds(Pin(0), FREE, &[0], &[Q(2)]),
    Holds(Pin(0), FREE, &[3], &[Q(4)]),
];

/// Gate 0 is a conjunction of register 0 and input 1, and gate 1 says whether it differs from register 0.
pub const FORK: &[Part] = &[
    Nets(6, &[0, 1]),
    Drives(And(0, 1), &[2, 1], 3),
    Drives(Xor(0, 1), &[3, 2], 4),
    Holds(Pin(0), FREE, &[0], &[Q(2)]),
    Holds(Pin(0), FREE, &[4], &[Q(5)]),
];

/// Register 1 takes the choice of three gates, input 1 where register 0 is 1 and else its own bit, or where register 0 is 1
/// the complement of that: its pin 0 is the choice, and pin 1 register 0.
pub const LOOP: &[Part] = &[
    Nets(8, &[0, 1]),
    Drives(And(0, 1), &[1, 2], 3),
    Drives(And(0, 1), &[6, 7], 4),
    Drives(Or(0, 1), &[3, 4], 5),
    Holds(Pin(0), FREE, &[0], &[Q(2), Qn(7)]),
    Holds(Xor(0, 1), FREE, &[5, 2], &[Q(6)]),
];

/// Two registers that are cleared in the first cycle, where input 1 is 0. Between them a cell would choose a constant 1 if
/// input 2 were 1. Input 0 presets register 1, but the clear wins. Output 0 shows where input 0 is 1 and register 0 is 0.
pub const CHAIN: &[Part] = &[
    Nets(9, &[0, 1, 2]),
    Outputs(&[8, 7]),
    Zero(2),
    Reset(1, false),
    Drives(One, &[], 5),
    Drives(Choice(1, 0, 2), &[3, 5, 2], 6),
    Drives(And(0, 1), &[0, 4], 8),
    Holds(Pin(0), CLEARED_LOW, &[0, 1], &[Q(3), Qn(4)]),
    Holds(Pin(0), CLEAR_WINS, &[6, 1, 0], &[Qn(7)]),
];

const CLEARED_AND_PRESET: Controls = Controls(Some(Pin(1)), Some(Pin(1)), true);

const PRESET_AND_CLEARED: Controls = Controls(Some(Pin(1)), Some(Pin(1)), false);

/// Inputs d and e, nets 0 and 1. Register 0 takes d, and shows its bit a on net 2 and its complement on net 3. Net 4 is
/// a and e, net 5 is net 4 or net 3, and net 6 is the same in one cell. Register 1 takes net 5, registers 2 and 3 too,
/// cleared and preset at once by e: the first is then 1, the second 0. The outputs are nets 5, 2 and 6.
pub const GLITCHING_PAIR: &[Part] = &[
    Nets(7, &[0, 1]),
    Outputs(&[5, 2, 6]),
    Drives(And(0, 1), &[2, 1], 4),
    Drives(Or(0, 1), &[4, 3], 5),
    Drives(AndOrNot(0, 1, 0), &[2, 1], 6),
    Holds(Pin(0), FREE, &[0], &[Q(2), Qn(3)]),
    Holds(Pin(0), FREE, &[5], &[]),
    Holds(Pin(0), CLEARED_AND_PRESET, &[5, 1], &[]),
    Holds(Pin(0), PRESET_AND_CLEARED, &[5, 1], &[]),
];
