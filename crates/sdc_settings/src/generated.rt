//! Scripts without generated clocks.
ghost use Rattle.std.specs.Prelude.{◌≡◌, IfOk, IfErr};
ghost use Rattle.sdc_settings.specs.Settings as spec;
ghost use Rattle.sdc_settings.specs.Causes.{IsGeneratedCause};

use script_types::{Command, Script, What};
use selected_types::ExpandFault;

/// Refuses a script that has a generated clock, at the first one.
pub(crate) fn no_generated(script: &Script) -> Result<(), ExpandFault>
    ensures ok { IfOk result (λ _. spec.HasNoGenerated script.now) }
    ensures err { IfErr result (IsGeneratedCause script.now) }
{
    for place in 0..script.commands.len() {
        let command = script.commands.item(place);
        if is_generated(command) {
            return Err(ExpandFault::Generated(command.line));
        }
    }
    Ok(())
}

fn is_generated(command: &Command) -> bool
    ensures { result ≡ spec.is_generated command.now }
{
    matches!(&command.what, What::Generated { .. })
}
