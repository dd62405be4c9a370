//! Which commands are passed over.
ghost use Rattle.std.specs.Prelude.{◌≡◌, ◌++◌, IfOk, OnOk, flat_map};
ghost use Rattle.script_notices.specs.Notices as spec;

use crate::counts::skipped_count;
use run_options::ScriptForm;
use script_types::Script;
use sdcv_base::{Name, Seq};
use selected_types::Skipped;
use std::alloc::{AllocError, Global};

/// The names of which commands are passed over, where any may be.
pub fn skipped_of(
    alloc: Global,
    form: &ScriptForm,
    script: &Script,
) -> Result<Option<Seq<Skipped>>, AllocError>
    ensures { IfOk result (λ lines. lines ≡ spec.skipped_of form.now script.now) }
{
    match form {
        ScriptForm::Narrow => Ok(None),
        ScriptForm::Wide(names) => of_names(alloc, names, script),
    }
}

fn of_names(
    alloc: Global,
    names: &Seq<Name>,
    script: &Script,
) -> Result<Option<Seq<Skipped>>, AllocError>
    ensures { IfOk result (λ lines. lines ≡ spec.skipped_by names.now script.now) }
{
    if names.is_empty() {
        return Ok(None);
    }
    Ok(Some(all_lines(alloc, names, script)?))
}

fn all_lines(alloc: Global, names: &Seq<Name>, script: &Script) -> Result<Seq<Skipped>, AllocError>
    ensures { IfOk result (λ lines. lines ≡ flat_map (spec.skipped_line script.now) names.now) }
{
    let mut lines = Seq::new(alloc);
    for k in 0..names.len() {
        push_line(alloc, script, names.item(k), &mut lines)?;
    }
    Ok(lines)
}

fn push_line(
    alloc: Global,
    script: &Script,
    name: &Name,
    lines: &mut Seq<Skipped>,
) -> Result<(), AllocError>
    ensures { OnOk result (lines.new ≡ lines.old ++ spec.skipped_line script.now name.now) }
{
    let count = skipped_count(script.commands.as_slice(), name);
    if count > 0 {
        lines.push(Skipped {
            name: name.copy(alloc)?,
            count,
        })?;
    }
    Ok(())
}
