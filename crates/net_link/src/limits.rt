//! Limits of the ports of the top module.
ghost use Rattle.std.specs.Prelude.{◌≡◌, ◌+◌, ◌<◌, All, length, IfErr, OnOk};
ghost use Rattle.net_model.specs.Netlist.{AllBelow};
ghost use Rattle.netlist_types.specs.declared.sources.Port.{Port as PortRecord};
ghost use Rattle.link_defs.specs.Faults.{most_inputs};
ghost use Rattle.net_link.specs.Limits.{HasFewBits, IsBitCause};

use link_circuit::port_nets;
use linked_types::LinkFault;
use net_model::{MOST_INPUTS, MOST_OUTPUTS};
use netlist_types::Module;
use sdcv_base::{LimitName, Name};
use std::alloc::Global;

/// As many data inputs as a design may have: more where its netlist is read wide.
pub(crate) fn most_inputs(wide: bool) -> usize
    ensures { result ≡ most_inputs wide }
{
    if wide { MOST_INPUTS } else { 2_000 }
}

/// The number that tells of one more.
pub(crate) fn above_inputs(wide: bool) -> u64
    ensures { result ≡ most_inputs wide + 1 }
{
    if wide { 20_001 } else { 2_001 }
}

/// Refuses a module of more data inputs or outputs than a design may have, before a bit of them is named.
pub(crate) fn check_bits(
    alloc: Global,
    body: &Module,
    clock: &Option<Name>,
    wide: bool,
) -> Result<(), LinkFault>
    requires { All (λ (p : PortRecord). AllBelow (length body.now.nets) p.bits) body.now.ports }
    ensures ok { OnOk result (HasFewBits wide body.now clock.now) }
    ensures err { IfErr result (IsBitCause wide body.now clock.now) }
{
    let nets = port_nets(alloc, body, clock)?;
    if nets.inputs.len() > most_inputs(wide) {
        return Err(LinkFault::Limit(LimitName::Inputs, above_inputs(wide)));
    }
    if nets.outputs.len() > MOST_OUTPUTS {
        return Err(LinkFault::Limit(LimitName::Outputs, 20_001));
    }
    Ok(())
}
