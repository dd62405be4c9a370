//! All that is told of a script.
ghost use Rattle.std.specs.Prelude.{◌≡◌, IfOk};
ghost use Rattle.script_notices.specs.Notices.{notices_of};

use crate::counts::hold_count;
use crate::skipped::skipped_of;
use crate::unjudged::unjudged;
use run_options::{Judging, ScriptForm};
use script_types::Script;
use sdcv_base::{Name, Seq};
use selected_types::{Notices, Selected};
use std::alloc::{AllocError, Global};

/// How a script is read and judged, and the name of the top module.
#[derive(Clone, Copy)]
pub struct Terms<'a> {
    pub form: &'a ScriptForm,
    pub judging: Judging,
    pub top: &'a Name,
}

/// What is told of a script that selects these pairs, and nothing of the netlist.
pub fn notices(
    alloc: Global,
    terms: &Terms<'_>,
    script: &Script,
    selected: &Selected,
) -> Result<Notices, AllocError>
    ensures { IfOk result (λ notices. notices ≡ notices_of terms.now.form.now terms.now.judging terms.now.top.now script.now selected.now) }
{
    Ok(Notices {
        top: None,
        clock: None,
        cuts: Seq::new(alloc),
        skipped: skipped_of(alloc, terms.form, script)?,
        unjudged: unjudged(alloc, terms, script, selected)?,
        hold_commands: hold_count(terms.judging, script),
    })
}
