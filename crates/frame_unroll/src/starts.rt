//! The nets of a start.
ghost use Rattle.std.specs.Prelude.{◌≡◌, IfOk};
ghost use Rattle.net_model.specs.Netlist.{IsSound};
ghost use Rattle.net_model.specs.Fits.{IsStartIn};
ghost use Rattle.net_model.specs.Pins as pins;
ghost use Rattle.query_model.specs.Reads as reads;
ghost use Rattle.frame_unroll.specs.Outs.{is_out, out_nets};

use net_model::{Claim, Design, RegOut, Start};
use sdcv_base::Seq;
use std::alloc::{AllocError, Global};

/// The nets of the claim's start, in the order of its outputs.
pub fn start_nets(alloc: Global, design: &Design, claim: &Claim) -> Result<Vec<usize>, AllocError>
    requires start { IsStartIn design.now claim.now.start }
    ensures { IfOk result (λ nets. nets.items ≡ pins.start_nets design.now claim.now.start) }
{
    match claim.start {
        Start::Reg(r) => out_nets(alloc, &design.regs.item(r).outs),
        Start::Input(i) => Vec::from_slice(alloc, &[design.inputs.at(i)]),
    }
}

fn out_nets(alloc: Global, outs: &Seq<RegOut>) -> Result<Vec<usize>, AllocError>
    ensures { IfOk result (λ nets. nets.items ≡ out_nets outs.now) }
{
    outs.as_slice().iter().map(|out| out.net).collect(alloc)
}

/// Whether a net is one of the claim's start.
pub fn is_start_net(design: &Design, claim: &Claim, net: usize) -> bool
    requires start { IsStartIn design.now claim.now.start }
    ensures { result ≡ reads.is_start_net design.now claim.now net }
{
    match claim.start {
        Start::Reg(r) => is_out(&design.regs.item(r).outs, net),
        Start::Input(i) => design.inputs.at(i) == net,
    }
}

fn is_out(outs: &Seq<RegOut>, net: usize) -> bool
    ensures { result ≡ is_out outs.now net }
{
    outs.as_slice().iter().any(|out| out.net == net)
}
