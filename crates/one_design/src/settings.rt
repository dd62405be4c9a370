//! A script has one clock and one list of fixed inputs. The law is the contract of a call that does nothing.
ghost use Rattle.selected_types.specs.declared.faults.ExpandFault.TheVariants.{Memory};
ghost use Rattle.sdc_settings.specs.Settings.{AreSettings};
ghost use Rattle.sdc_settings.specs.Causes.{IsSettingsCause};
ghost use Rattle.one_design.specs.Answers.{IsOneAnswer};

use linked_types::PortName;
use script_types::Script;
use sdcv_base::{Name, Seq, Setting};

/// A script has at most one clock and list of fixed inputs among these input bits, and no fault beside them; also where the clock
/// of this name is asked for.
pub fn one_settings(
    script: &Script,
    inputs: &Seq<PortName>,
    resets: &Seq<Setting>,
    clock: &Option<Name>,
)
    ensures { IsOneAnswer (AreSettings script.now inputs.now resets.now clock.now) (IsSettingsCause script.now inputs.now resets.now clock.now) Memory }
{}
