//! Designs whose claims and invariants are worked out by hand.
use net_samples::Form::{And, AndOr, Choice, Nor, Not, One, Pin, Xor};
use net_samples::Out::{Q, Qn};
use net_samples::Part::{Drives, Holds, Nets, Outputs, Reset};
use net_samples::{Controls, Part};

const FREE: Controls = Controls(None, None, true);

// A clear by pin 0, 1, 2 or 3, and a preset by pin 1.
const CLEARED_0: Controls = Controls(Some(Pin(0)), None, true);

const CLEARED: Controls = Controls(Some(Pin(1)), None, true);

const CLEARED_2: Controls = Controls(Some(Pin(2)), None, true);

const CLEARED_3: Controls = Controls(Some(Pin(3)), None, true);

const PRESET: Controls = Controls(None, Some(Pin(1)), true);

/// A counter of registers 2 and 3, from 0. Register 0 takes the input at 0, and register 1 takes register 0 at 2.
pub const PHASES: &[Part] = &[
    Nets(10, &[0, 1]),
    Reset(1, true),
    Drives(Xor(0, 1), &[5, 4], 7),
    Drives(Nor(0, 1), &[4, 5], 8),
    Drives(And(0, 1), &[5, 6], 9),
    Holds(Choice(0, 2, 1), FREE, &[0, 8], &[Q(2)]),
    Holds(Choice(0, 2, 1), FREE, &[2, 9], &[Q(3)]),
    Holds(Pin(0), CLEARED, &[6, 1], &[Q(4), Qn(6)]),
    Holds(Pin(0), CLEARED, &[7, 1], &[Q(5)]),
];

/// A ring of registers 2, 3 and 4, of which one has a 1, at first register 2. Register 0 takes the input where register 2
/// is 1, and register 1 takes register 0 where register 4 is.
pub const RING: &[Part] = &[
    Nets(7, &[0, 1]),
    Reset(1, true),
    Holds(Choice(0, 2, 1), FREE, &[0, 4], &[Q(2)]),
    Holds(Choice(0, 2, 1), FREE, &[2, 6], &[Q(3)]),
    Holds(Pin(0), PRESET, &[6, 1], &[Q(4)]),
    Holds(Pin(0), CLEARED, &[4, 1], &[Q(5)]),
    Holds(Pin(0), CLEARED, &[5, 1], &[Q(6)]),
];

/// A counter of registers 2, 3 and 4, from 0 to 6; were it 7, it would stay so. Registers 0 and 1 take the input and
/// register 0 at 7 alone.
pub const NEVER_7: &[Part] = &[
    Nets(15, &[0, 1]),
    Reset(1, true),
    Drives(And(0, 1), &[5, 6], 8),
    Drives(And(0, 1), &[4, 8], 9),
    Drives(And(0, 1), &[7, 8], 10),
    Drives(Not(0), &[10], 11),
    Drives(Xor(0, 1), &[5, 4], 12),
    Drives(And(0, 1), &[5, 4], 13),
    Drives(Xor(0, 1), &[6, 13], 14),
    Holds(Choice(0, 2, 1), FREE, &[0, 9], &[Q(2)]),
    Holds(Choice(0, 2, 1), FREE, &[2, 9], &[Q(3)]),
    Holds(AndOr(0, 1, 2), CLEARED_3, &[7, 11, 9, 1], &[Q(4), Qn(7)]),
    Holds(AndOr(0, 1, 2), CLEARED_3, &[12, 11, 9, 1], &[Q(5)]),
    Holds(AndOr(0, 1, 2), CLEARED_3, &[14, 11, 9, 1], &[Q(6)]),
];

/// A counter of registers 3, 4 and 5, from 0 to 6; were it 7, it would be 0 next, and register 2 would be 1, which is
/// cleared at first. Register 1 takes register 0, which takes the input, where register 2 is 1.
pub const AFTER_7: &[Part] = &[
    Nets(16, &[0, 1]),
    Reset(1, true),
    Drives(And(0, 1), &[6, 7], 9),
    Drives(And(0, 1), &[5, 9], 10),
    Drives(And(0, 1), &[8, 9], 11),
    Drives(Not(0), &[11], 12),
    Drives(Xor(0, 1), &[6, 5], 13),
    Drives(And(0, 1), &[6, 5], 14),
    Drives(Xor(0, 1), &[7, 14], 15),
    Holds(Pin(0), FREE, &[0], &[Q(2)]),
    Holds(And(0, 1), FREE, &[2, 4], &[Q(3)]),
    Holds(Pin(0), CLEARED, &[10, 1], &[Q(4)]),
    Holds(And(0, 1), CLEARED_2, &[8, 12, 1], &[Q(5), Qn(8)]),
    Holds(And(0, 1), CLEARED_2, &[13, 12, 1], &[Q(6)]),
    Holds(And(0, 1), CLEARED_2, &[15, 12, 1], &[Q(7)]),
];

/// Whether the parity of inputs 1 to 4 differs from itself in the reverse order, which it does not: net 13. Register 1
/// takes that where register 0 is 1, which takes the first input.
pub const PARITY: &[Part] = &[
    Nets(15, &[0, 1, 2, 3, 4]),
    Drives(Xor(0, 1), &[1, 2], 7),
    Drives(Xor(0, 1), &[7, 3], 8),
    Drives(Xor(0, 1), &[8, 4], 9),
    Drives(Xor(0, 1), &[4, 3], 10),
    Drives(Xor(0, 1), &[10, 2], 11),
    Drives(Xor(0, 1), &[11, 1], 12),
    Drives(Xor(0, 1), &[9, 12], 13),
    Drives(And(0, 1), &[5, 13], 14),
    Holds(Pin(0), FREE, &[0], &[Q(5)]),
    Holds(Pin(0), FREE, &[14], &[Q(6)]),
];

/// The same parity, which register 0 takes; register 1 takes register 0.
pub const HELD_PARITY: &[Part] = &[
    Nets(14, &[0, 1, 2, 3, 4]),
    Reset(0, true),
    Drives(Xor(0, 1), &[1, 2], 7),
    Drives(Xor(0, 1), &[7, 3], 8),
    Drives(Xor(0, 1), &[8, 4], 9),
    Drives(Xor(0, 1), &[4, 3], 10),
    Drives(Xor(0, 1), &[10, 2], 11),
    Drives(Xor(0, 1), &[11, 1], 12),
    Drives(Xor(0, 1), &[9, 12], 13),
    Holds(Pin(0), CLEARED, &[13, 0], &[Q(5)]),
    Holds(Pin(0), CLEARED, &[5, 0], &[Q(6)]),
];

/// Register 1 takes register 0 where register 3 is 1. Register 3 takes register 2, which is 1 from the second cycle after
/// the reset on.
pub const LATE: &[Part] = &[
    Nets(6, &[0, 1]),
    Reset(1, true),
    Holds(Pin(0), FREE, &[0], &[Q(2)]),
    Holds(And(0, 1), FREE, &[2, 5], &[Q(3)]),
    Holds(One, CLEARED_0, &[1], &[Q(4)]),
    Holds(Pin(0), CLEARED, &[4, 1], &[Q(5)]),
];

/// Register 0 is 1 from the second cycle after the reset on, and register 1 from the third.
pub const RISING: &[Part] = &[
    Nets(3, &[0]),
    Reset(0, true),
    Holds(One, CLEARED_0, &[0], &[Q(1)]),
    Holds(Pin(0), CLEARED, &[1, 0], &[Q(2)]),
];

/// Two registers that take each other, both 0.
pub const COPIES: &[Part] = &[
    Nets(3, &[0]),
    Reset(0, true),
    Holds(Pin(0), CLEARED, &[2, 0], &[Q(1)]),
    Holds(Pin(0), CLEARED, &[1, 0], &[Q(2)]),
];

/// A register that takes its complement.
pub const TURNS: &[Part] = &[
    Nets(2, &[0]),
    Reset(0, true),
    Holds(Pin(0), CLEARED, &[1, 0], &[Qn(1)]),
];

const PLAIN: Controls = Controls(None, None, false);

/// Register 1 takes a conjunction of registers 0 and 2, which take the input, and register 3 takes register 1, which a port shows.
pub const JOINED: &[Part] = &[
    Nets(6, &[0]),
    Outputs(&[2]),
    Drives(And(0, 1), &[1, 3], 5),
    Holds(Pin(0), PLAIN, &[0], &[Q(1)]),
    Holds(Pin(0), PLAIN, &[5], &[Q(2)]),
    Holds(Pin(0), PLAIN, &[0], &[Q(3)]),
    Holds(Pin(0), PLAIN, &[2], &[Q(4)]),
];

/// Eighteen registers in a row, each of which takes the one before it.
pub const LONG: &[Part] = &[
    Nets(19, &[0]),
    Outputs(&[18]),
    Holds(Pin(0), PLAIN, &[0], &[Q(1)]),
    Holds(Pin(0), PLAIN, &[1], &[Q(2)]),
    Holds(Pin(0), PLAIN, &[2], &[Q(3)]),
    Holds(Pin(0), PLAIN, &[3], &[Q(4)]),
    Holds(Pin(0), PLAIN, &[4], &[Q(5)]),
    Holds(Pin(0), PLAIN, &[5], &[Q(6)]),
    Holds(Pin(0), PLAIN, &[6], &[Q(7)]),
    Holds(Pin(0), PLAIN, &[7], &[Q(8)]),
    Holds(Pin(0), PLAIN, &[8], &[Q(9)]),
    Holds(Pin(0), PLAIN, &[9], &[Q(10)]),
    Holds(Pin(0), PLAIN, &[10], &[Q(11)]),
    Holds(Pin(0), PLAIN, &[11], &[Q(12)]),
    Holds(Pin(0), PLAIN, &[12], &[Q(13)]),
    Holds(Pin(0), PLAIN, &[13], &[Q(14)]),
    Holds(Pin(0), PLAIN, &[14], &[Q(15)]),
    Holds(Pin(0), PLAIN, &[15], &[Q(16)]),
    Holds(Pin(0), PLAIN, &[16], &[Q(17)]),
    Holds(Pin(0), PLAIN, &[17], &[Q(18)]),
];
