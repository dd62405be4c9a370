//! What is told of a netlist and a script beside the selected pairs.
ghost use Rattle.std.specs.Prelude.{◌≡◌, map, is_some, IfOk};
ghost use Rattle.link_tops.specs.Tops.{IsTop};
ghost use Rattle.script_notices.specs.Notices.{notices_of};
ghost use Rattle.design_stages.specs.Designs.{asked_clock, asked_top, free_count, told_alone, told_cut, top_name, with_netlist};

use crate::designs::ReadTexts;
use link_tops::one_top;
use linked_types::{CutName, Names};
use netlist_types::Source;
use run_options::{Judging, NetlistForm};
use script_notices::{Terms, notices, skipped_of};
use sdcv_base::{Name, Seq};
use selected_types::{CutCells, Notices, Selected};
use std::alloc::{AllocError, Global};

/// What is told of a netlist with a design of these names, and of constraints of which nothing is judged: the commands that are
/// passed over by their names.
pub fn told_alone(alloc: Global, texts: &ReadTexts, names: &Names) -> Result<Notices, AllocError>
    ensures { IfOk result (λ n. n ≡ told_alone texts.now names.now) }
{
    let alone = Notices {
        top: None,
        clock: None,
        cuts: Seq::new(alloc),
        skipped: skipped_of(alloc, &texts.forms.script, &texts.script)?,
        unjudged: Seq::new(alloc),
        hold_commands: 0,
    };
    with_netlist(alloc, &texts.forms.netlist, names, alone)
}

/// A name, where there is one.
fn name_of(alloc: Global, name: &Option<Name>) -> Result<Option<Name>, AllocError>
    ensures { IfOk result (λ copied. copied ≡ name.now) }
{
    match name {
        Some(name) => Ok(Some(name.copy(alloc)?)),
        None => Ok(None),
    }
}

/// The name of the top module, where it is asked for.
fn asked_top(alloc: Global, form: &NetlistForm) -> Result<Option<Name>, AllocError>
    ensures { IfOk result (λ name. name ≡ asked_top form.now) }
{
    match form {
        NetlistForm::Narrow => Ok(None),
        NetlistForm::Wide(cutting) => name_of(alloc, &cutting.top),
    }
}

/// The name of the clock, where it is asked for.
pub fn asked_clock(alloc: Global, form: &NetlistForm) -> Result<Option<Name>, AllocError>
    ensures { IfOk result (λ name. name ≡ asked_clock form.now) }
{
    match form {
        NetlistForm::Narrow => Ok(None),
        NetlistForm::Wide(cutting) => name_of(alloc, &cutting.clock),
    }
}

/// Whether a clock is asked for by its name.
pub(crate) fn is_clock_asked(form: &NetlistForm) -> bool
    ensures { result ≡ is_some (asked_clock form.now) }
{
    match form {
        NetlistForm::Narrow => false,
        NetlistForm::Wide(cutting) => cutting.clock.is_some(),
    }
}

/// What is told of the cells that are cut out.
fn told_cuts(alloc: Global, cuts: &Seq<CutName>) -> Result<Seq<CutCells>, AllocError>
    ensures { IfOk result (λ told. told ≡ map told_cut cuts.now) }
{
    let mut told = Seq::new(alloc);
    for k in 0..cuts.len() {
        let one = cuts.item(k);
        told.push(CutCells {
            cell: one.cell.copy(alloc)?,
            count: one.count as u64,
            open: one.open,
        })?;
    }
    Ok(told)
}

/// With what is told of the netlist too.
pub(crate) fn with_netlist(
    alloc: Global,
    form: &NetlistForm,
    names: &Names,
    notices: Notices,
) -> Result<Notices, AllocError>
    ensures { IfOk result (λ n. n ≡ with_netlist form.now names.now notices) }
{
    let top = asked_top(alloc, form)?;
    let clock = asked_clock(alloc, form)?;
    let cuts = told_cuts(alloc, &names.cuts)?;
    let Notices {
        skipped,
        unjudged,
        hold_commands,
        ..
    } = notices;
    Ok(Notices {
        top,
        clock,
        cuts,
        skipped,
        unjudged,
        hold_commands,
    })
}

/// How many nets are free behind what is cut out, where cells may be cut out.
pub fn free_count(form: &NetlistForm, names: &Names) -> Option<u64>
    ensures { result ≡ free_count form.now names.now }
{
    match form {
        NetlistForm::Narrow => None,
        NetlistForm::Wide(_) => Some(names.free.len() as u64),
    }
}

/// The place of the top module. A source that is linked has one.
fn top_place(alloc: Global, source: &Source) -> Result<usize, AllocError>
    ensures { IfOk result (IsTop source.now) }
{
    match one_top(alloc, source) {
        Ok(place) => Ok(place),
        Err(_) => Err(AllocError),
    }
}

/// The name of the top module.
fn top_name(alloc: Global, source: &Source) -> Result<Name, AllocError>
    ensures { IfOk result (λ name. name ≡ top_name source.now) }
{
    let place = top_place(alloc, source)?;
    let name = source.modules.item(place).name.copy(alloc)?;
    Ok(name)
}

/// What is told of the constraints beside the selected pairs.
pub(crate) fn noticed(
    alloc: Global,
    texts: &ReadTexts,
    source: &Source,
    judging: Judging,
    selected: &Selected,
) -> Result<Notices, AllocError>
    ensures { IfOk result (λ n. n ≡ notices_of texts.now.forms.script judging (top_name source.now) texts.now.script selected.now) }
{
    let top = top_name(alloc, source)?;
    let terms = Terms {
        form: &texts.forms.script,
        judging,
        top: &top,
    };
    notices(alloc, &terms, &texts.script, selected)
}
