//! Numbers that are out of range.
ghost use Rattle.std.specs.Prelude.{◌≡◌, ◌≤◌, true, length, MatchOption};
ghost use Rattle.net_model.specs.Form.{IsOver};
ghost use Rattle.net_model.specs.Mentions.{mentions, mentions_if_any, reg_mentions, IsRegOver};
ghost use Rattle.net_model.specs.Netlist.{AllBelow, IsOptionOver, IsGateInRange, IsRegInRange, reg_nets, setting_inputs};
ghost use Rattle.net_model.specs.Faults.{IsBeyond, IsGateBeyond, IsRegBeyond};

use crate::functions::{Func, Node};
use crate::netlist::{Design, Fixed, Gate, Reg};
use sdcv_base::Seq;

/// A place that the function mentions and that is not below the limit.
fn place_beyond(func: &Func, limit: usize) -> Option<usize>
    ensures over { MatchOption result (IsOver limit func.now) (λ n. limit ≤ n) }
    ensures mentioned { MatchOption result (IsOver limit func.now) (λ n. mentions n func.now ≡ true) }
{
    match &func.node {
        Node::Zero => None,
        Node::One => None,
        Node::Pin(place) if *place < limit => None,
        Node::Pin(place) => Some(*place),
        Node::Not(f) => place_beyond(f, limit),
        Node::And(f, g) => place_beyond(f, limit).or(place_beyond(g, limit)),
        Node::Or(f, g) => place_beyond(f, limit).or(place_beyond(g, limit)),
        Node::Xor(f, g) => place_beyond(f, limit).or(place_beyond(g, limit)),
    }
}

/// The same of a control, if there is one.
fn control_beyond(control: &Option<Func>, limit: usize) -> Option<usize>
    ensures over { MatchOption result (IsOptionOver limit control.now) (λ n. limit ≤ n) }
    ensures mentioned { MatchOption result (IsOptionOver limit control.now) (λ n. mentions_if_any n control.now ≡ true) }
{
    match control {
        None => None,
        Some(func) => place_beyond(func, limit),
    }
}

/// A number of the list that is not below the limit.
pub fn number_beyond(numbers: &Seq<usize>, limit: usize) -> Option<usize>
    ensures { MatchOption result (AllBelow limit numbers.now) (IsBeyond limit numbers.now) }
{
    numbers.as_slice().iter().copied().find(|n| *n >= limit)
}

/// An output net that is not below the limit.
fn out_beyond(reg: &Reg, limit: usize) -> Option<usize>
    ensures { MatchOption result (AllBelow limit (reg_nets reg.now)) (IsBeyond limit (reg_nets reg.now)) }
{
    let outs = reg.outs.as_slice();
    outs.iter().map(|out| out.net).find(|net| *net >= limit)
}

/// An input that is given a value and is not below the limit.
pub fn input_beyond(settings: &Seq<Fixed>, limit: usize) -> Option<usize>
    ensures { MatchOption result (AllBelow limit (setting_inputs settings.now)) (IsBeyond limit (setting_inputs settings.now)) }
{
    let settings = settings.as_slice();
    settings
        .iter()
        .map(|setting| setting.input)
        .find(|input| *input >= limit)
}

/// A number of the gate that is out of range.
pub fn gate_beyond(design: &Design, gate: &Gate) -> Option<usize>
    requires { length gate.now.ins ≤ 6 }
    ensures { MatchOption result (IsGateInRange design.now gate.now) (IsGateBeyond design.now gate.now) }
{
    let out = if gate.out < design.nets {
        None
    } else {
        Some(gate.out)
    };
    place_beyond(&gate.func, gate.ins.len())
        .or(number_beyond(&gate.ins, design.nets))
        .or(out)
}

/// A place that the register mentions and that is not below the limit.
fn reg_place_beyond(reg: &Reg, limit: usize) -> Option<usize>
    ensures over { MatchOption result (IsRegOver limit reg.now) (λ n. limit ≤ n) }
    ensures mentioned { MatchOption result (IsRegOver limit reg.now) (λ n. reg_mentions n reg.now ≡ true) }
{
    place_beyond(&reg.next, limit)
        .or(control_beyond(&reg.clear, limit))
        .or(control_beyond(&reg.preset, limit))
}

/// A number of the register that is out of range.
pub fn reg_beyond(design: &Design, reg: &Reg) -> Option<usize>
    requires { length reg.now.ins ≤ 6 }
    ensures { MatchOption result (IsRegInRange design.now reg.now) (IsRegBeyond design.now reg.now) }
{
    reg_place_beyond(reg, reg.ins.len() + 1)
        .or(number_beyond(&reg.ins, design.nets))
        .or(out_beyond(reg, design.nets))
}
