//! Sixty-four cycles at once, against values by hand.
ghost use Rattle.net_model.specs.Netlist.{IsSound};

use net_model::{Design, Lanes};
use net_samples::Form::{And, Nor, Not, Pin, Xor};
use net_samples::Out::{Q, Qn};
use net_samples::Part::{Drives, Holds, Nets, Outputs};
use net_samples::{Controls, Part, design};
use net_sim::settle64;
use sdcv_base::Seq;
use std::alloc::{AllocError, Global};
use std::process::Abort;

const FREE: Controls = Controls(None, None, false);

// Two inputs on nets 0 and 1, a counter of two bits on 2 and 3, and two registers in a row on 4 and 5; the last shows its
// complement on 10. The gates are the low bit's complement, the next high bit, and two states of the counter.
const COUNTER: &[Part] = &[
    Nets(11, &[0, 1]),
    Outputs(&[5]),
    Drives(Not(0), &[2], 6),
    Drives(Xor(0, 1), &[3, 2], 7),
    Drives(Nor(0, 1), &[2, 3], 8),
    Drives(And(0, 1), &[3, 6], 9),
    Holds(Pin(0), FREE, &[6], &[Q(2)]),
    Holds(Pin(0), FREE, &[7], &[Q(3)]),
    Holds(Pin(0), FREE, &[1], &[Q(4)]),
    Holds(Pin(0), FREE, &[4], &[Q(5), Qn(10)]),
];

// The sixteen states of four registers in the lanes 0 to 15, and the first of them in the others.
const BITS: [Lanes; 4] = [Lanes(0xAAAA), Lanes(0xCCCC), Lanes(0xF0F0), Lanes(0xFF00)];

const INS: [Lanes; 2] = [Lanes(0), Lanes(0x5555)];

// What the nets show then, worked out by hand.
const NETS: [Lanes; 11] = [
    Lanes(0),
    Lanes(0x5555),
    Lanes(0xAAAA),
    Lanes(0xCCCC),
    Lanes(0xF0F0),
    Lanes(0xFF00),
    Lanes(0xFFFF_FFFF_FFFF_5555),
    Lanes(0x6666),
    Lanes(0xFFFF_FFFF_FFFF_1111),
    Lanes(0x4444),
    Lanes(0xFFFF_FFFF_FFFF_00FF),
];

fn settled(rt: &impl Abort, alloc: Global, design: &Design) -> Result<Seq<Lanes>, AllocError>
    requires sound { IsSound design.now }
{
    let bits = Seq::of(alloc, &BITS)?;
    let ins = Seq::of(alloc, &INS)?;
    let mut nets = Seq::filled(alloc, Lanes(0), design.nets)?;
    assert!(rt; bits.len() == design.regs.len());
    assert!(rt; ins.len() == design.inputs.len());
    settle64(design, &bits, &ins, &mut nets);
    Ok(nets)
}

#[test]
fn sixteen_states_settle_in_a_word(rt: HostRuntime) -> Result<(), AllocError> {
    let design = design(rt.alloc(), COUNTER)?;
    assert!(rt; design.check(rt.alloc()).is_ok());
    let nets = settled(&rt, rt.alloc(), &design)?;
    assert_eq!(rt; nets.as_slice(), NETS.as_slice());
    Ok(())
}
