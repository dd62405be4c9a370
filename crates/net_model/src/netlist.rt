//! A design: gates and registers over numbered nets, with one clock.
use crate::functions::Func;
use sdcv_base::Seq;

/// A combinational function that drives one net. Place i of `func` is net `ins[i]`.
pub struct Gate {
    pub func: Func,
    pub ins: Seq<usize>,
    pub out: usize,
}

// Let go by a call of its own: whoever owns one proves nothing of how its parts are kept.
impl Drop for Gate {
    fn drop(self) {
        let Gate {
            func: _func,
            ins: _ins,
            out: _out,
        } = self;
    }
}

/// A net that shows a register's bit, or where `inverted` its complement.
#[derive(Debug, Clone, Copy, PartialEq, Eq)]
pub struct RegOut {
    pub net: usize,
    pub inverted: bool,
}

/// An edge-triggered register, as the `ff` group of Liberty has it.
///
/// Place i of `next`, `clear` and `preset` is net `ins[i]`, and the place after the last entry is the register's own
/// bit. `both` is the value that it takes where clear and preset are both 1.
pub struct Reg {
    pub next: Func,
    pub clear: Option<Func>,
    pub preset: Option<Func>,
    pub both: bool,
    pub ins: Seq<usize>,
    pub outs: Seq<RegOut>,
}

// Let go by a call of its own: whoever owns one proves nothing of how its parts are kept.
impl Drop for Reg {
    fn drop(self) {
        let Reg {
            next: _next,
            clear: _clear,
            preset: _preset,
            both: _both,
            ins: _ins,
            outs: _outs,
        } = self;
    }
}

/// A value for an input, which is a place in the design's `inputs`.
#[derive(Debug, Clone, Copy, PartialEq, Eq)]
pub struct Fixed {
    pub input: usize,
    pub value: bool,
}

/// A flat design. Nets are the numbers below `nets`; `inputs` and `outputs` list nets.
///
/// The clock port is not among `inputs`. `fixed` has the inputs that keep a value, and `resets` those that have the
/// value given, their active one, in the cycles 0 to `reset_len` - 1 and its complement after.
pub struct Design {
    pub nets: usize,
    pub gates: Seq<Gate>,
    pub regs: Seq<Reg>,
    pub inputs: Seq<usize>,
    pub outputs: Seq<usize>,
    pub fixed: Seq<Fixed>,
    pub resets: Seq<Fixed>,
    pub reset_len: usize,
}

// Let go by a call of its own: whoever owns one proves nothing of how its parts are kept.
impl Drop for Design {
    fn drop(self) {
        let Design {
            nets: _nets,
            gates: _gates,
            regs: _regs,
            inputs: _inputs,
            outputs: _outputs,
            fixed: _fixed,
            resets: _resets,
            reset_len: _reset_len,
        } = self;
    }
}
