//! What a run that is judged as for a sign-off leaves open.
ghost use Rattle.std.specs.Prelude.{◌≡◌};
ghost use Rattle.report_text.specs.Signoff as spec;

use run_options::RunOptions;
use selected_types::{CommandLine, Listing, Notices, Selected};

// Whether an exception is set aside, or claims nothing of any pair.
fn is_idle(listing: &Listing) -> bool
    ensures { result ≡ spec.is_idle listing.now }
{
    match listing {
        Listing::Claiming(_, _, pairs) | Listing::HoldSide(_, pairs) => *pairs == 0,
        Listing::Hold => false,
        Listing::Aside(_) => true,
    }
}

// Whether an exception is such a one, or has a warning.
fn is_open(command: &CommandLine) -> bool
    ensures { result ≡ spec.is_open command.now }
{
    is_idle(&command.listing) || !command.warnings.is_empty()
}

// Whether any exception is open.
fn any_open(commands: &[CommandLine]) -> bool
    ensures { result ≡ spec.any_open commands.now }
{
    commands.iter().any(is_open)
}

/// Whether a run that is judged as for a sign-off leaves something open whatever its verdicts are: it tells of a command that is
/// not judged, or an exception is set aside, claims nothing of any pair, or has a warning.
pub fn leaves_open(options: &RunOptions, notices: &Notices, selected: &Selected) -> bool
    ensures { result ≡ spec.leaves_open options.now notices.now selected.now }
{
    options.strict && (!notices.unjudged.is_empty() || any_open(selected.commands.as_slice()))
}
