//! Paths of late nets from the start to the end.
ghost use Rattle.std.specs.Prelude.{◌≡◌, ◌==◌, IfOk, IfSome};
ghost use Rattle.std.specs.List.{list_any};
ghost use Rattle.net_model.specs.Netlist.{IsSound};
ghost use Rattle.net_model.specs.Fits.{Fits, IsStartIn};
ghost use Rattle.net_model.specs.Cycles.{IsSettled};
ghost use Rattle.net_model.specs.Pins.{start_nets};
ghost use Rattle.net_model.specs.declared.netlist.RegOut.{RegOut as OutRecord};
ghost use Rattle.shown_runs.specs.Carried.{IsCarried};

use crate::late_cycles::{LateCycle, Rest};
use crate::late_layers::LateLayers;
use net_model::{Claim, Cycle, Design, RegOut, Start};
use sdcv_base::Seq;
use std::alloc::{AllocError, Global};

fn is_out(outs: &Seq<RegOut>, net: usize) -> bool
    ensures { result ≡ list_any (λ (o : OutRecord). o.net == net) outs.now }
{
    outs.as_slice().iter().any(|out| out.net == net)
}

/// Whether a net is one of the start.
fn is_start_net(design: &Design, start: &Start, net: usize) -> bool
    requires { IsStartIn design.now start.now }
    ensures { result ≡ list_any (λ n. n == net) (start_nets design.now start.now) }
{
    match start {
        Start::Reg(r) => is_out(&design.regs.item(*r).outs, net),
        Start::Input(i) => design.inputs.at(*i) == net,
    }
}

/// The nets of a path that carries what is late from the start of a claim to its end in a settled cycle, given the start's
/// bit before it changed: the path meets the through sets in their order, and each net on it is late.
///
/// The first such path from the end back is told. Where the walk comes to no net of the start, none is: so it is where the
/// end's capture changes and is not late.
pub fn carried_path(
    alloc: Global,
    design: &Design,
    claim: &Claim,
    cycle: &Cycle,
    stale: bool,
) -> Result<Option<Seq<usize>>, AllocError>
    requires sound { IsSound design.now }
    requires fits { Fits design.now claim.now }
    requires settled { IsSettled design.now cycle.now }
    ensures some { IfOk result (λ found. IfSome found (IsCarried design.now claim.now cycle.now stale)) }
{
    let layers = LateLayers::of(alloc, design, claim, cycle, stale)?;
    let late = LateCycle {
        design,
        claim,
        cycle,
        stale,
        layers,
    };
    let Some(rest) = late.longest_rest(alloc)? else {
        return Ok(None);
    };
    let Rest { source, mut nets } = rest;
    if source.layer > 0 || !is_start_net(design, &claim.start, source.net) {
        return Ok(None);
    }
    nets.reverse();
    Ok(Some(Seq::from_vec(nets)))
}
