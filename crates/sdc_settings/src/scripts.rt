//! The call that finds the clock and the fixed inputs.
ghost use Rattle.std.specs.Prelude.{IfOk, IfErr};
ghost use Rattle.sdc_settings.specs.Settings.{AreSettings};
ghost use Rattle.sdc_settings.specs.Causes.{IsSettingsCause};

use crate::cases::all_given;
use crate::clocks::clock;
use crate::fixed::fixed_inputs;
use crate::generated::no_generated;
use crate::values::Settings;
use linked_types::PortName;
use script_types::Script;
use sdcv_base::{Name, Seq, Setting};
use selected_types::ExpandFault;
use std::alloc::Global;

/// The settings of a script. `inputs` are the input port bits of the design's top, the clocks' among them, in port order;
/// `resets` are the inputs that are active for the first cycles, which no case analysis may fix; `asked` is the name of the
/// clock that is to be judged, where a script may have several. The clock is looked at first, then whether one is generated,
/// for which a script is refused, then the case analyses.
pub fn settings(
    alloc: Global,
    script: &Script,
    inputs: &Seq<PortName>,
    resets: &Seq<Setting>,
    asked: &Option<Name>,
) -> Result<Settings, ExpandFault>
    ensures ok { IfOk result (AreSettings script.now inputs.now resets.now asked.now) }
    ensures err { IfErr result (IsSettingsCause script.now inputs.now resets.now asked.now) }
{
    let clock = clock(alloc, script, inputs, asked)?;
    no_generated(script)?;
    let givens = all_given(alloc, script, inputs, &clock)?;
    let fixed = fixed_inputs(alloc, inputs, resets, &givens)?;
    Ok(Settings { clock, fixed })
}
