//! The one command whose pairs are tried.
ghost use Rattle.std.specs.Prelude.{◌≡◌, IfOk};
ghost use Rattle.mcp_detect.specs.Scripts as spec;

use script_types::{Checks, Command, Exception, Object, Script, What};
use sdcv_base::{Edge, Kind, Seq};
use std::alloc::{AllocError, Global};

/// The script of that command.
#[tactic(auto, unfolding(crate::specs::Scripts::registers_script))]
pub(crate) fn registers_script(alloc: Global) -> Result<Script, AllocError>
    ensures { IfOk result (λ script. script ≡ spec.registers_script) }
{
    let exception = Exception {
        kind: Kind::Multi(2),
        checks: Checks::Unsaid,
        edge: Edge::Any,
        from: Some(Seq::one(alloc, Object::AllRegisters)?),
        through: Seq::new(alloc),
        to: Some(Seq::one(alloc, Object::AllRegisters)?),
    };
    let command = Command {
        line: 1,
        what: What::Claiming(exception),
    };
    Ok(Script {
        commands: Seq::one(alloc, command)?,
    })
}
