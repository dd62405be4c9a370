//! The commands that a timing analyser obeys, and of whose effect no verdict speaks.
ghost use Rattle.std.specs.Prelude.{◌≡◌, ◌++◌, IfOk, OnOk, flat_map, not};
ghost use Rattle.std.specs.Option.{option_map};
ghost use Rattle.script_notices.specs.Companions.{shifted_by};
ghost use Rattle.script_notices.specs.Notices as spec;
ghost use Rattle.script_notices.specs.Tables.{AreLows};

use crate::lows::Lows;
use crate::shifts::{HoldShift, is_companion, next_place};
use crate::tellings::Terms;
use script_types::{Command, Held, Script, What};
use sdcv_base::{Name, Seq};
use selected_types::{Selected, Unjudged};
use std::alloc::{AllocError, Global};

/// A script with what it selects, and with its exceptions by the least multipliers over their pairs.
#[derive(Clone, Copy)]
struct Scope<'a> {
    top: &'a Name,
    hold: bool,
    script: &'a Script,
    selected: &'a Selected,
    lows: &'a Lows,
}

/// The commands of which no verdict speaks, where a script is judged as for a sign-off.
pub(crate) fn unjudged(
    alloc: Global,
    terms: &Terms<'_>,
    script: &Script,
    selected: &Selected,
) -> Result<Seq<Unjudged>, AllocError>
    ensures { IfOk result (λ lines. lines ≡ spec.unjudged_of terms.now.top.now terms.now.judging script.now selected.now) }
{
    if !terms.judging.strict {
        return Ok(Seq::new(alloc));
    }
    let lows = Lows::new(alloc, selected)?;
    let scope = Scope {
        top: terms.top,
        hold: terms.judging.hold,
        script,
        selected,
        lows: &lows,
    };
    all_lines(alloc, &scope)
}

fn all_lines(alloc: Global, scope: &Scope<'_>) -> Result<Seq<Unjudged>, AllocError>
    requires { AreLows scope.now.selected.now scope.now.lows.now }
    ensures { IfOk result (λ lines. lines ≡
        flat_map (spec.unjudged_line scope.now.top.now scope.now.hold scope.now.script.now scope.now.selected.now) scope.now.script.now.commands) }
{
    let mut lines = Seq::new(alloc);
    for k in 0..scope.script.commands.len() {
        push_line(alloc, scope, scope.script.commands.item(k), &mut lines)?;
    }
    Ok(lines)
}

fn push_line(
    alloc: Global,
    scope: &Scope<'_>,
    command: &Command,
    lines: &mut Seq<Unjudged>,
) -> Result<(), AllocError>
    requires { AreLows scope.now.selected.now scope.now.lows.now }
    ensures { OnOk result (lines.new ≡ lines.old ++
        spec.unjudged_line scope.now.top.now scope.now.hold scope.now.script.now scope.now.selected.now command.now) }
{
    if let Some(name) = unjudged_name(alloc, scope, &command.what)? {
        lines.push(Unjudged {
            line: command.line,
            name,
        })?;
    }
    Ok(())
}

fn unjudged_name(alloc: Global, scope: &Scope<'_>, what: &What) -> Result<Option<Name>, AllocError>
    requires { AreLows scope.now.selected.now scope.now.lows.now }
    ensures { IfOk result (λ name. name ≡
        spec.unjudged_name scope.now.top.now scope.now.hold scope.now.script.now scope.now.selected.now what.now) }
{
    match what {
        What::Unjudged(name) => Ok(Some(name.copy(alloc)?)),
        What::Scope(word) => name_where(alloc, word != scope.top, b"current_design"),
        What::Hold(held) => held_name(alloc, scope, held),
        What::Claiming(exception) => multi_name(alloc, scope, HoldShift::of_both(exception)),
        _ => Ok(None),
    }
}

fn name_where(alloc: Global, is: bool, name: &[u8]) -> Result<Option<Name>, AllocError>
    ensures { IfOk result (λ found. found ≡ spec.name_where is name.now) }
{
    if is {
        Ok(Some(Name::new(alloc, name)?))
    } else {
        Ok(None)
    }
}

// A `set_false_path -hold` has no number.
fn held_name(alloc: Global, scope: &Scope<'_>, held: &Held) -> Result<Option<Name>, AllocError>
    requires { AreLows scope.now.selected.now scope.now.lows.now }
    ensures { IfOk result (λ name. name ≡
        spec.held_name scope.now.hold scope.now.script.now scope.now.selected.now held.now held.now.number) }
{
    if held.number.is_none() {
        return name_where(alloc, !scope.hold, b"set_false_path");
    }
    multi_name(alloc, scope, HoldShift::of_held(held))
}

fn multi_name(
    alloc: Global,
    scope: &Scope<'_>,
    shift: Option<HoldShift<'_>>,
) -> Result<Option<Name>, AllocError>
    requires { AreLows scope.now.selected.now scope.now.lows.now }
    ensures { IfOk result (λ name. name ≡
        spec.multi_name scope.now.script.now scope.now.selected.now (option_map shifted_by shift.entry)) }
{
    match shift {
        Some(shift) => name_where(alloc, is_open(scope, &shift), b"set_multicycle_path"),
        None => Ok(None),
    }
}

fn is_open(scope: &Scope<'_>, shift: &HoldShift<'_>) -> bool
    requires { AreLows scope.now.selected.now scope.now.lows.now }
    ensures { result ≡ spec.is_open scope.now.script.now scope.now.selected.now (shifted_by shift.now) }
{
    shift.number > 0 && !has_safe_companion(scope, shift)
}

fn has_safe_companion(scope: &Scope<'_>, shift: &HoldShift<'_>) -> bool
    requires { AreLows scope.now.selected.now scope.now.lows.now }
    ensures { result ≡ spec.has_safe_companion scope.now.script.now scope.now.selected.now (shifted_by shift.now) }
{
    let mut place = 0;
    for k in 0..scope.script.commands.len() {
        let what = &scope.script.commands.item(k).what;
        if is_companion(shift, what) && scope.lows.is_safe(shift.number, place) {
            return true;
        }
        place = next_place(place, what);
    }
    false
}
