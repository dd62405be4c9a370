//! Designs whose claims are worked out by hand.
use net_samples::Form::{And, Choice, Pin, Xor};
use net_samples::Out::Q;
use net_samples::Part::{Drives, Holds, Nets, Outputs, Reset};
use net_samples::{Controls, Part};

const FREE: Controls = Controls(None, None, true);

// A clear and a preset by pin 1.
const CLEARED: Controls = Controls(Some(Pin(1)), None, true);

const PRESET: Controls = Controls(None, Some(Pin(1)), true);

/// Inputs rst and d, nets 0 and 1. Register 0 takes d, and register 1 a conjunction of register 0 with a net that is always 0. Both
/// are cleared by rst, which is active at 1 for one cycle.
pub const TIED: &[Part] = &[
    Nets(6, &[0, 1]),
    Outputs(&[3]),
    Reset(0, true),
    Drives(Xor(0, 0), &[0], 4),
    Drives(And(0, 1), &[2, 4], 5),
    Holds(Pin(0), CLEARED, &[1, 0], &[Q(2)]),
    Holds(Pin(0), CLEARED, &[5, 0], &[Q(3)]),
];

/// Inputs d and rst, nets 0 and 1. Registers 2 and 3 take each other, at first 1 and 0. Where register 2 is 1, register 0 takes d and
/// register 1 takes register 0; else they keep their bits.
pub const SWAP: &[Part] = &[
    Nets(6, &[0, 1]),
    Reset(1, true),
    Holds(Choice(0, 2, 1), FREE, &[0, 4], &[Q(2)]),
    Holds(Choice(0, 2, 1), FREE, &[2, 4], &[Q(3)]),
    Holds(Pin(0), PRESET, &[5, 1], &[Q(4)]),
    Holds(Pin(0), CLEARED, &[4, 1], &[Q(5)]),
];

/// Inputs d and rst, nets 0 and 1. Register 0 takes d, and register 1 a conjunction of registers 0 and 2. Register 2 takes register 3,
/// which takes 0; both are 0 at first.
pub const DRAINS: &[Part] = &[
    Nets(6, &[0, 1]),
    Reset(1, true),
    Holds(Pin(0), FREE, &[0], &[Q(2)]),
    Holds(And(0, 1), FREE, &[2, 4], &[Q(3)]),
    Holds(Pin(0), CLEARED, &[5, 1], &[Q(4)]),
    Holds(Xor(0, 0), CLEARED, &[0, 1], &[Q(5)]),
];
