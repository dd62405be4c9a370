//! How the netlist and the constraints of a view are read.
ghost use Rattle.std.specs.Prelude.{◌≡◌, IfOk, Some};
ghost use Rattle.std.specs.Option.{option_map};
ghost use Rattle.sdcv_words.specs.Cuttings.{netlist_by};
ghost use Rattle.view_commands.specs.Forms.{form_of, names_of};

use crate::stops::Stop;
use run_options::{NetlistForm, ScriptForm};
use sdcv_base::{Name, Seq};
use sdcv_words::{netlist_by, skips_of};
use std::alloc::Global;

/// How the netlist is read: wide where a list of patterns of references, which may be cut out, or the name of a clock or a top
/// module stands.
pub fn netlist_of(
    alloc: Global,
    list: Option<&str>,
    clock: Option<&str>,
    top: Option<&str>,
) -> Result<NetlistForm, Stop>
    ensures { IfOk result (λ form. netlist_by (option_map (λ t. t.now) list.entry) (option_map (λ t. t.now) clock.entry) (option_map (λ t. t.now) top.entry)
        ≡ Some form) }
{
    match netlist_by(alloc, list, clock, top)? {
        Some(form) => Ok(form),
        None => Err(Stop::Words(
            "--free takes patterns of references, parted by commas and none of them empty, and --clock and --top a name",
        )),
    }
}

/// The names of the commands that are passed over, where a list of them stands.
pub fn names_of(alloc: Global, list: Option<&str>) -> Result<Option<Seq<Name>>, Stop>
    ensures { IfOk result (λ names. names_of (option_map (λ t. t.now) list.entry) ≡ Some names) }
{
    let Some(text) = list else {
        return Ok(None);
    };
    match skips_of(alloc, text)? {
        Some(names) => Ok(Some(names)),
        None => Err(Stop::Words(
            "--skip takes names of commands, parted by commas, and none that a run reads itself",
        )),
    }
}

/// How the constraints are read: wide where names are passed over, or where a report was made as for a sign-off.
pub fn form_of(alloc: Global, names: Option<Seq<Name>>, strict: bool) -> ScriptForm
    ensures { result ≡ form_of names strict }
{
    match names {
        Some(names) => ScriptForm::Wide(names),
        None if strict => ScriptForm::Wide(Seq::new(alloc)),
        None => ScriptForm::Narrow,
    }
}
