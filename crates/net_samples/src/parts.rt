//! Designs as lists of parts.
use net_model::{Design, Fixed, Func, Gate, Reg, RegOut};
use sdcv_base::Seq;
use std::alloc::{AllocError, Global};

/// A function of the places given.
#[derive(Clone, Copy)]
pub enum Form {
    One,
    Pin(usize),
    Not(usize),
    And(usize, usize),
    Or(usize, usize),
    Xor(usize, usize),
    Nor(usize, usize),
    /// Whether the first two are 1, or the third.
    AndOr(usize, usize, usize),
    /// Whether the first two are 1, or the third is 0.
    AndOrNot(usize, usize, usize),
    /// The first where the third is 1, and else the second.
    Choice(usize, usize, usize),
}

/// A net that shows a register's bit, or its complement.
#[derive(Clone, Copy)]
pub enum Out {
    Q(usize),
    Qn(usize),
}

/// The clear and preset of a register, and its value where both are 1.
#[derive(Clone, Copy)]
pub struct Controls(pub Option<Form>, pub Option<Form>, pub bool);

/// A part of a design. Places of functions are those of the nets that follow.
pub enum Part {
    /// How many nets there are, and those of inputs.
    Nets(usize, &'static [usize]),
    Outputs(&'static [usize]),
    /// An input that is 0.
    Zero(usize),
    /// An input that has this value in the first cycle, and the other one after it.
    Reset(usize, bool),
    /// A function, its nets, and the net that it drives.
    Drives(Form, &'static [usize], usize),
    /// A next state with controls, their nets, and those that the register drives.
    Holds(Form, Controls, &'static [usize], &'static [Out]),
}

fn and_or(alloc: Global, first: usize, second: usize, third: Func) -> Result<Func, AllocError> {
    let both = Func::and(alloc, Func::pin(first), Func::pin(second))?;
    Func::or(alloc, both, third)
}

fn choice(alloc: Global, first: usize, second: usize, select: usize) -> Result<Func, AllocError> {
    let other = Func::not(alloc, Func::pin(select))?;
    let other = Func::and(alloc, Func::pin(second), other)?;
    and_or(alloc, first, select, other)
}

fn func(alloc: Global, form: Form) -> Result<Func, AllocError> {
    match form {
        Form::One => Ok(Func::one()),
        Form::Pin(a) => Ok(Func::pin(a)),
        Form::Not(a) => Func::not(alloc, Func::pin(a)),
        Form::And(a, b) => Func::and(alloc, Func::pin(a), Func::pin(b)),
        Form::Or(a, b) => Func::or(alloc, Func::pin(a), Func::pin(b)),
        Form::Xor(a, b) => Func::xor(alloc, Func::pin(a), Func::pin(b)),
        Form::Nor(a, b) => {
            let either = Func::or(alloc, Func::pin(a), Func::pin(b))?;
            Func::not(alloc, either)
        }
        Form::AndOr(a, b, c) => and_or(alloc, a, b, Func::pin(c)),
        Form::AndOrNot(a, b, c) => and_or(alloc, a, b, Func::not(alloc, Func::pin(c))?),
        Form::Choice(a, b, select) => choice(alloc, a, b, select),
    }
}

fn func_if_any(alloc: Global, form: Option<Form>) -> Result<Option<Func>, AllocError> {
    match form {
        Some(form) => Ok(Some(func(alloc, form)?)),
        None => Ok(None),
    }
}

fn gate(alloc: Global, form: Form, ins: &[usize], out: usize) -> Result<Gate, AllocError> {
    let func = func(alloc, form)?;
    let ins = Seq::of(alloc, ins)?;
    Ok(Gate { func, ins, out })
}

fn reg_outs(alloc: Global, nets: &[Out]) -> Result<Seq<RegOut>, AllocError> {
    let mut outs = Seq::new(alloc);
    for out in nets {
        let (net, inverted) = match *out {
            Out::Q(net) => (net, false),
            Out::Qn(net) => (net, true),
        };
        outs.push(RegOut { net, inverted })?;
    }
    Ok(outs)
}

fn set_reg(
    alloc: Global,
    reg: &mut Reg,
    next: Form,
    controls: Controls,
    ins: &[usize],
    outs: &[Out],
) -> Result<(), AllocError> {
    reg.next = func(alloc, next)?;
    reg.clear = func_if_any(alloc, controls.0)?;
    reg.preset = func_if_any(alloc, controls.1)?;
    reg.both = controls.2;
    reg.ins = Seq::of(alloc, ins)?;
    reg.outs = reg_outs(alloc, outs)?;
    Ok(())
}

fn blank_reg(alloc: Global) -> Reg {
    Reg {
        next: Func::zero(),
        clear: None,
        preset: None,
        both: false,
        ins: Seq::new(alloc),
        outs: Seq::new(alloc),
    }
}

fn add_part(alloc: Global, design: &mut Design, part: &Part) -> Result<(), AllocError> {
    match *part {
        Part::Nets(count, inputs) => {
            design.nets = count;
            design.inputs = Seq::of(alloc, inputs)?;
        }
        Part::Outputs(nets) => design.outputs = Seq::of(alloc, nets)?,
        Part::Zero(input) => {
            let value = false;
            design.fixed.push(Fixed { input, value })?;
        }
        Part::Reset(input, value) => {
            design.resets.push(Fixed { input, value })?;
            design.reset_len = 1;
        }
        Part::Drives(form, ins, out) => design.gates.push(gate(alloc, form, ins, out)?)?,
        Part::Holds(next, controls, ins, outs) => {
            let mut reg = blank_reg(alloc);
            set_reg(alloc, &mut reg, next, controls, ins, outs)?;
            design.regs.push(reg)?;
        }
    }
    Ok(())
}

/// The design of these parts, in their order. It is as sound as they are.
pub fn design(alloc: Global, parts: &[Part]) -> Result<Design, AllocError> {
    let mut design = Design {
        nets: 0,
        gates: Seq::new(alloc),
        regs: Seq::new(alloc),
        inputs: Seq::new(alloc),
        outputs: Seq::new(alloc),
        fixed: Seq::new(alloc),
        resets: Seq::new(alloc),
        reset_len: 0,
    };
    for part in parts {
        add_part(alloc, &mut design, part)?;
    }
    Ok(design)
}
