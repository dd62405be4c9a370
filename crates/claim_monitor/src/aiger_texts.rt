//! AIGER texts of claims.
ghost use Rattle.std.specs.Prelude.{◌≡◌, false, IfOk};
ghost use Rattle.net_model.specs.Netlist.{IsSound};
ghost use Rattle.net_model.specs.Fits.{Fits};
ghost use Rattle.claim_monitor.specs.AigerTexts.{IsAigerOf};

use crate::monitors::watch;
use and_graphs::aiger_text;
use net_model::{Claim, Design};
use std::alloc::{AllocError, Global};

/// A text in the ASCII format of AIGER 1.9, and how many inputs, latches and conjunctions its first line counts.
#[derive(Drop)]
pub struct AigerText {
    pub bytes: Vec<u8>,
    pub inputs: u64,
    pub latches: u64,
    pub gates: u64,
}

/// The text of a graph that watches a claim: its bad literal is 1 in exactly the steps in which a run is caught. Its inputs are the
/// data inputs that are neither fixed nor reset, in order; its first latches are the registers, which begin with any bit.
pub fn write_aiger(alloc: Global, design: &Design, claim: &Claim) -> Result<AigerText, AllocError>
    requires sound { IsSound design.now }
    requires fits { Fits design.now claim.now }
    requires plain { claim.now.hazard ≡ false }
    ensures { IfOk result (IsAigerOf design.now claim.now) }
{
    let graph = watch(alloc, design, claim)?;
    let bytes = aiger_text(alloc, &graph)?;
    Ok(AigerText {
        bytes,
        inputs: graph.inputs,
        latches: graph.latches.len() as u64,
        gates: graph.lines.len() as u64,
    })
}
