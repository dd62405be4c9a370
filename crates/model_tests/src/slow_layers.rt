//! A plain, slow evaluator of layers, by recursion over their rules, for the tests.
//!
//! It knows three values alone: a bit is a value that is known.
use net_model::{Claim, Cycle, Design, End, Func, Gate, Node, PinRef, Reg, Start, Tern, Value};

fn has(places: u8, place: usize) -> bool {
    place < 8 && (places >> place) & 1 == 1
}

// The bit of a function whose places have these bits.
fn bit_of(func: &Func, places: u8) -> bool {
    match &func.node {
        Node::Zero => false,
        Node::One => true,
        Node::Pin(place) => has(places, *place),
        Node::Not(f) => !bit_of(f, places),
        Node::And(f, g) => bit_of(f, places) & bit_of(g, places),
        Node::Or(f, g) => bit_of(f, places) | bit_of(g, places),
        Node::Xor(f, g) => bit_of(f, places) != bit_of(g, places),
    }
}

fn control(func: &Option<Func>, places: u8) -> bool {
    match func {
        Some(func) => bit_of(func, places),
        None => false,
    }
}

/// A gate, or a register as one cell.
#[derive(Clone, Copy)]
enum Cell<'a> {
    Gate(&'a Gate),
    Reg(&'a Reg),
}

fn cell_bit(cell: Cell<'_>, places: u8) -> bool {
    match cell {
        Cell::Gate(gate) => bit_of(&gate.func, places),
        Cell::Reg(reg) => match (control(&reg.clear, places), control(&reg.preset, places)) {
            (true, true) => reg.both,
            (true, false) => false,
            (false, true) => true,
            (false, false) => bit_of(&reg.next, places),
        },
    }
}

fn completes(pins: &[Tern; 7], places: u8) -> bool {
    for (place, pin) in pins.iter().enumerate() {
        let bit = Tern::of_bit(has(places, place));
        if *pin != Tern::Unknown && *pin != bit {
            return false;
        }
    }
    true
}

// The common bit of all completions of the pins, else unknown.
fn common(cell: Cell<'_>, pins: &[Tern; 7]) -> Tern {
    let mut found = None;
    for places in 0..128u8 {
        if completes(pins, places) {
            let bit = Tern::of_bit(cell_bit(cell, places));
            if found.is_some_and(|other| other != bit) {
                return Tern::Unknown;
            }
            found = Some(bit);
        }
    }
    found.unwrap_or(Tern::Unknown)
}

/// More steps than a pin of the designs of the tests takes to be read.
const STEPS: usize = 64;

/// The layers of a cycle in which the start shows this late value, or its complement on an inverted net.
#[derive(Drop)]
pub struct SlowLayers<'a> {
    pub design: &'a Design,
    pub claim: &'a Claim,
    pub cycle: &'a Cycle,
    pub late: Tern,
}

impl SlowLayers<'_> {
    // Whether a pin is in the set of a layer; the first layer has none.
    fn is_held(&self, layer: usize, pin: PinRef) -> bool {
        if layer == 0 {
            return false;
        }
        match self.claim.through.as_slice().get(layer - 1) {
            Some(set) => set.pins().as_slice().contains(&pin),
            None => false,
        }
    }

    // The late value on a net of the start.
    fn late_on(&self, net: usize) -> Option<Tern> {
        match self.claim.start {
            Start::Input(input) if self.design.inputs.as_slice().get(input) == Some(&net) => Some(
                self.late,
            ),
            Start::Input(_) => None,
            Start::Reg(reg) => {
                let reg = self.design.regs.as_slice().get(reg)?;
                let out = reg.outs.as_slice().iter().find(|out| out.net == net)?;
                Some(if out.inverted {
                    complement(self.late)
                } else {
                    self.late
                })
            }
        }
    }

    // The value of a net that an input or a register drives.
    fn source(&self, layer: usize, net: usize) -> Tern {
        match self.late_on(net) {
            Some(late) if layer == 0 => late,
            _ => match self.cycle.nets.as_slice().get(net) {
                Some(bit) => Tern::of_bit(*bit),
                None => Tern::Unknown,
            },
        }
    }

    // What a pin reads of a net, within so many steps.
    fn reads(&self, layer: usize, pin: PinRef, net: usize, steps: usize) -> Tern {
        if steps == 0 {
            return Tern::Unknown;
        }
        if layer > 0 && self.is_held(layer, pin) {
            return self.reads(layer - 1, pin, net, steps - 1);
        }
        if pin != PinRef::Net(net) {
            return self.reads(layer, PinRef::Net(net), net, steps - 1);
        }
        for (k, gate) in self.design.gates.as_slice().iter().enumerate() {
            if gate.out == net {
                let mut pins = [Tern::Zero; 7];
                for (place, from) in gate.ins.as_slice().iter().enumerate() {
                    if place < 7 {
                        pins[place] = self.reads(layer, PinRef::GateIn(k, place), *from, steps - 1);
                    }
                }
                return common(Cell::Gate(gate), &pins);
            }
        }
        self.source(layer, net)
    }

    /// What the end captures over the last layer.
    pub fn capture(&self) -> Tern {
        let last = self.claim.through.len();
        match self.claim.end {
            End::Output(output) => match self.design.outputs.as_slice().get(output) {
                Some(net) => self.reads(last, PinRef::OutPort(output), *net, STEPS),
                None => Tern::Unknown,
            },
            End::Reg(number) => match self.design.regs.as_slice().get(number) {
                Some(reg) => self.reg_capture(last, number, reg),
                None => Tern::Unknown,
            },
        }
    }

    // No function of the tests reads the register's own bit.
    fn reg_capture(&self, last: usize, number: usize, reg: &Reg) -> Tern {
        let mut pins = [Tern::Zero; 7];
        for (place, net) in reg.ins.as_slice().iter().enumerate() {
            if place < 7 {
                pins[place] = self.reads(last, PinRef::RegIn(number, place), *net, STEPS);
            }
        }
        common(Cell::Reg(reg), &pins)
    }
}

fn complement(value: Tern) -> Tern {
    match value {
        Tern::Zero => Tern::One,
        Tern::One => Tern::Zero,
        Tern::Unknown => Tern::Unknown,
    }
}
