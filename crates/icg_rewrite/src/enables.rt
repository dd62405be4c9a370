//! Gates that tell whether clock gates pass.
ghost use Rattle.std.specs.Prelude.{◌≡◌, ◌≤◌, ℕ, IfOk, OnOk, [], ◌∷◌, ◌++◌};
ghost use Rattle.icg_rewrite.specs.Faults.{HasRoom};
ghost use Rattle.icg_rewrite.specs.Gated.{AreGated, IsGateOf, IsBelowIfAny};
ghost use Rattle.icg_rewrite.specs.Rewritten.{enable_gate, enable_gates};

use crate::clock_gates::{ClockGate, Gated};
use net_model::{Func, Gate};
use sdcv_base::Seq;
use std::alloc::{AllocError, Global};

/// An equal gate.
fn copy_gate(alloc: Global, gate: &Gate) -> Result<Gate, AllocError>
    ensures { IfOk result (λ copied. copied ≡ gate.now) }
{
    let func = gate.func.copy(alloc)?;
    let ins = gate.ins.copy(alloc)?;
    Ok(Gate {
        func,
        ins,
        out: gate.out,
    })
}

/// Copies of gates.
fn copy_gates(alloc: Global, gates: &Seq<Gate>) -> Result<Seq<Gate>, AllocError>
    ensures { IfOk result (λ copied. copied ≡ gates.now) }
{
    let mut list = Seq::new(alloc);
    for gate in gates.as_slice() {
        list.push(copy_gate(alloc, gate)?)?;
    }
    Ok(list)
}

/// The gate that tells whether the clock gate of this number passes.
fn enable_gate(alloc: Global, nets: usize, k: usize, gate: &ClockGate) -> Result<Gate, AllocError>
    requires nets { nets ≤ 200000 }
    requires number { k ≤ 200000 }
    requires parent { IsBelowIfAny k gate.now.parent }
    ensures { IfOk result (λ made. made ≡ enable_gate nets k gate.now) }
{
    let func = gate.func.copy(alloc)?;
    let mut ins = gate.ins.copy(alloc)?;
    let out = nets + k;
    let Some(parent) = gate.parent else {
        return Ok(Gate { func, ins, out });
    };
    let func = Func::and(alloc, func, Func::pin(ins.len()))?;
    ins.push(nets + parent)?;
    Ok(Gate { func, ins, out })
}

/// The gates of the design, and then one for each clock gate that tells whether it passes.
pub(crate) fn gates_with_enables(alloc: Global, gated: &Gated) -> Result<Seq<Gate>, AllocError>
    requires are { AreGated gated.now }
    requires room { HasRoom gated.now }
    ensures { IfOk result (λ gates. gates ≡ gated.now.design.gates ++ enable_gates gated.now.design.nets 0 gated.now.gates) }
{
    let mut gates = copy_gates(alloc, &gated.design.gates)?;
    for k in 0..gated.gates.len() {
        gates.push(enable_gate(alloc, gated.design.nets, k, gated.gates.item(k))?)?;
    }
    Ok(gates)
}
