//! How many commands of a script are of a kind.
ghost use Rattle.std.specs.Prelude.{◌≡◌};
ghost use Rattle.script_notices.specs.Notices as spec;

use run_options::Judging;
use script_types::{Checks, Command, Script, What};
use sdcv_base::{Kind, Name};

/// How many commands of this name are passed over.
#[tactic(auto, using(std::proofs::lemmas::List::Sums::count_by_more_no, std::proofs::lemmas::List::Sums::count_by_more_yes))]
pub(crate) fn skipped_count(commands: &[Command], name: &Name) -> u64
    ensures { result ≡ spec.skipped_count commands.now name.now }
{
    let mut count = 0;
    for command in commands {
        if is_named(name, command) {
            count += 1;
        }
    }
    count
}

fn is_named(name: &Name, command: &Command) -> bool
    ensures { result ≡ spec.is_named name.now command.now.what }
{
    match &command.what {
        What::Unjudged(other) => name == other,
        _ => false,
    }
}

/// How many false paths take hold checks off that are not judged.
pub(crate) fn hold_count(judging: Judging, script: &Script) -> u64
    ensures { result ≡ spec.hold_count judging script.now }
{
    if judging.strict && !judging.hold {
        takers(script.commands.as_slice())
    } else {
        0
    }
}

#[tactic(auto, using(std::proofs::lemmas::List::Sums::count_by_more_no, std::proofs::lemmas::List::Sums::count_by_more_yes))]
fn takers(commands: &[Command]) -> u64
    ensures { result ≡ spec.takers commands.now }
{
    let mut count = 0;
    for command in commands {
        if takes_hold(command) {
            count += 1;
        }
    }
    count
}

fn takes_hold(command: &Command) -> bool
    ensures { result ≡ spec.takes_hold command.now.what }
{
    match &command.what {
        What::Claiming(exception) => is_both_sided(exception.kind, exception.checks),
        _ => false,
    }
}

fn is_both_sided(kind: Kind, checks: Checks) -> bool
    ensures { result ≡ spec.is_both_sided kind checks }
{
    match (kind, checks) {
        (Kind::False, Checks::Setup) => false,
        (Kind::False, _) => true,
        (Kind::Multi(_), _) => false,
    }
}
