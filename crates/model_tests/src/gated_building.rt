//! Designs with clock gates, part by part. Each clock gate has one enable.
ghost use Rattle.std.specs.Prelude.{◌<◌, ◌↔◌, IsTrue, IfOk, OnOk, length};
ghost use Rattle.net_model.specs.Netlist.{IsSound};
ghost use Rattle.icg_rewrite.specs.Gated.{AreGated, IsBelowIfAny};

use icg_rewrite::{ClockGate, Gated};
use net_model::{Design, Func};
use sdcv_base::Seq;
use std::alloc::{AllocError, Global};
use std::process::Abort;

/// A design without clock gates.
pub fn ungated(alloc: Global, design: Design) -> Result<Gated, AllocError>
    requires { IsSound design }
    ensures { IfOk result AreGated }
{
    let of = Seq::filled(alloc, None, design.regs.len())?;
    Ok(Gated {
        design,
        gates: Seq::new(alloc),
        of,
    })
}

/// Whether there is no clock gate, or its number is below this one.
pub fn is_below(limit: usize, gate: Option<usize>) -> bool
    ensures { IsTrue result ↔ IsBelowIfAny limit gate }
{
    match gate {
        None => true,
        Some(k) => k < limit,
    }
}

/// One clock gate more, with the net of its enable and its parent.
pub fn add_gate(
    alloc: Global,
    gated: &mut Gated,
    enable: usize,
    parent: Option<usize>,
) -> Result<(), AllocError>
    requires are { AreGated gated.old }
    requires enable { enable < gated.old.design.nets }
    requires parent { IsBelowIfAny (length gated.old.gates) parent }
    ensures { OnOk result (AreGated gated.new) }
{
    let ins = Seq::one(alloc, enable)?;
    let func = Func::pin(0);
    gated.gates.push(ClockGate { func, ins, parent })?;
    Ok(())
}

/// Puts a register behind a clock gate.
pub fn put_behind(rt: &impl Abort, gated: &mut Gated, reg: usize, gate: usize)
    requires { AreGated gated.old }
    ensures { AreGated gated.new }
{
    assert!(rt; reg < gated.of.len());
    assert!(rt; gate < gated.gates.len());
    gated.of.put(reg, Some(gate));
}
