//! Whether there is room for the assumptions.
ghost use Rattle.std.specs.Prelude.{◌≡◌, IfErr, OnOk};
ghost use Rattle.net_model.specs.Netlist.{IsSound};
ghost use Rattle.case_inputs.specs.Faults.{HasRoom, IsAssumeCause};

use crate::assumptions::Assumed;
use crate::faults::AssumeFault;
use net_model::{Design, MOST_INPUTS, MOST_NETS};
use sdcv_base::Seq;

/// Checks that there is room for a net and an input for each assumption.
pub(crate) fn check_room(design: &Design, assumed: &Seq<Assumed>) -> Result<(), AssumeFault>
    requires { IsSound design.now }
    ensures ok { OnOk result (HasRoom design.now assumed.now) }
    ensures err { IfErr result (IsAssumeCause design.now assumed.now) }
{
    let Some(nets) = design.nets.checked_add(assumed.len()) else {
        // A number does not count so many, and no memory holds them.
        return Err(AssumeFault::Memory);
    };
    if nets > MOST_NETS {
        return Err(AssumeFault::Nets(nets));
    }
    let inputs = design.inputs.len() + assumed.len();
    if inputs > MOST_INPUTS {
        return Err(AssumeFault::Inputs(inputs));
    }
    Ok(())
}
