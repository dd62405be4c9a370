//! What the commands of a script select, command by command.
ghost use Rattle.std.specs.Prelude.{◌≡◌, ◌++◌, ◌+◌, ◌∷◌, [], ◌≤◌, ◌<◌, All, IfOk, IfErr, OnOk, length, map, flat_map};
ghost use Rattle.net_model.specs.Netlist.{IsSound};
ghost use Rattle.net_paths.specs.Searches.{IsSearchOf};
ghost use Rattle.exception_expand.specs.Progress.{IsTask, IsUpTo, Adds, IsWhatCause};
ghost use Rattle.exception_expand.specs.Asking.{asked_by, listing_of};
ghost use Rattle.exception_expand.specs.Sides.{sides_by};
ghost use Rattle.exception_expand.specs.Causes.{IsExpandCause};
ghost use Rattle.exception_expand.specs.Pairs.{IsPairIn, claim_for};
ghost use Rattle.exception_expand.specs.Selections as spec;

use crate::asks::Ask;
use crate::choices::{Choice, choose};
use crate::claims::{Terms, push_claims};
use crate::limits::MOST_PAIRS;
use crate::lines::{Names, push_lines};
use crate::tasks::Task;
use net_model::Design;
use net_paths::Search;
use script_types::{Command, What};
use sdcv_base::Seq;
use selected_types::{CommandLine, ExpandFault, Listing, Selected};
use std::alloc::{AllocError, Global};

/// What the commands before a place select, and room for the next search.
#[derive(Drop)]
pub(crate) struct Progress {
    search: Search,
    selected: Selected,
}

/// What all commands of a script select, however many claims need a verdict.
pub(crate) fn all_selected(alloc: Global, task: &Task) -> Result<Selected, ExpandFault>
    requires { IsTask task.now }
    ensures ok { IfOk result (IsUpTo task.now.scope.linked.now task.now.scope.script.now task.now.judging (length task.now.scope.script.now.commands)) }
    ensures err { IfErr result (IsExpandCause task.now.scope.linked.now task.now.scope.script.now task.now.judging) }
{
    let mut progress = Progress::new(alloc, &task.scope.linked.design)?;
    for k in 0..task.scope.script.commands.len() {
        progress.add_command(alloc, task, k)?;
    }
    let Progress {
        selected,
        search: _,
    } = progress;
    Ok(selected)
}

impl Progress {
    fn new(alloc: Global, design: &Design) -> Result<Progress, AllocError>
        requires { IsSound design.now }
        ensures search { IfOk result (λ p. IsSearchOf design.now p.search) }
        ensures commands { IfOk result (λ p. p.selected.commands ≡ []) }
        ensures pairs { IfOk result (λ p. p.selected.pairs ≡ []) }
        ensures claims { IfOk result (λ p. p.selected.claims ≡ []) }
    {
        let search = Search::new(alloc, design)?;
        Ok(Progress {
            search,
            selected: Selected {
                commands: Seq::new(alloc),
                pairs: Seq::new(alloc),
                claims: Seq::new(alloc),
            },
        })
    }

    // Adds what the command at a place selects.
    fn add_command(&mut self, alloc: Global, task: &Task, k: usize) -> Result<(), ExpandFault>
        requires task { IsTask task.now }
        requires here { k < length task.now.scope.script.now.commands }
        requires search { IsSearchOf task.now.scope.linked.now.design self.old.search }
        requires before { IsUpTo task.now.scope.linked.now task.now.scope.script.now task.now.judging k self.old.selected }
        ensures search { IsSearchOf task.now.scope.linked.now.design self.new.search }
        ensures ok { OnOk result (IsUpTo task.now.scope.linked.now task.now.scope.script.now task.now.judging (k + 1) self.new.selected) }
        ensures err { IfErr result (IsExpandCause task.now.scope.linked.now task.now.scope.script.now task.now.judging) }
    {
        let command = task.scope.script.commands.item(k);
        self.add_what(alloc, task, command.line, &command.what)
    }

    fn add_what(
        &mut self,
        alloc: Global,
        task: &Task,
        line: u64,
        what: &What,
    ) -> Result<(), ExpandFault>
        requires task { IsTask task.now }
        requires search { IsSearchOf task.now.scope.linked.now.design self.old.search }
        requires few { length self.old.selected.claims ≤ 100000 }
        ensures search { IsSearchOf task.now.scope.linked.now.design self.new.search }
        ensures ok { OnOk result
            (Adds task.now.scope.linked.now task.now.scope.script.now task.now.judging line what.now self.old.selected self.new.selected) }
        ensures err { IfErr result (IsWhatCause task.now.scope.linked.now task.now.scope.script.now task.now.judging
            (length self.old.selected.claims) what.now) }
    {
        let Some(ask) = Ask::of(what, task.judging.hold) else {
            return Ok(add_unasked(alloc, &mut self.selected, line, what)?);
        };
        let most = ask
            .sides
            .most_pairs(MOST_PAIRS - self.selected.claims.len());
        let choice = choose(
            alloc,
            &task.scope,
            task.points,
            &ask,
            &mut self.search,
            most,
        )?;
        Ok(add_choice(alloc, &mut self.selected, task, line, &ask, choice)?)
    }
}

// Adds a command that asks nothing: an exception has a line.
fn add_unasked(
    alloc: Global,
    selected: &mut Selected,
    line: u64,
    what: &What,
) -> Result<(), AllocError>
    ensures commands { OnOk result (selected.new.commands ≡ selected.old.commands ++ spec.lines_unasked line what.now) }
    ensures pairs { selected.new.pairs ≡ selected.old.pairs }
    ensures claims { selected.new.claims ≡ selected.old.claims }
{
    match what {
        What::Hold(_) => add_line(alloc, selected, line, Listing::Hold),
        What::Aside(option) => {
            let listing = Listing::Aside(option.copy(alloc)?);
            add_line(alloc, selected, line, listing)
        }
        _ => Ok(()),
    }
}

// Adds an exception that claims nothing.
fn add_line(
    alloc: Global,
    selected: &mut Selected,
    line: u64,
    listing: Listing,
) -> Result<(), AllocError>
    ensures commands { OnOk result (selected.new.commands ≡ selected.old.commands ++ spec.command_line line listing [] ∷ []) }
    ensures pairs { selected.new.pairs ≡ selected.old.pairs }
    ensures claims { selected.new.claims ≡ selected.old.claims }
{
    let warnings = Seq::new(alloc);
    selected.commands.push(CommandLine {
        line,
        listing,
        warnings,
    })?;
    Ok(())
}

// Adds what an exception selects.
fn add_choice(
    alloc: Global,
    selected: &mut Selected,
    task: &Task,
    line: u64,
    ask: &Ask,
    choice: Choice,
) -> Result<(), AllocError>
    requires task { IsTask task.now }
    requires pairs { All (IsPairIn task.now.scope.linked.now.design) choice.pairs }
    ensures commands { OnOk result (selected.new.commands ≡ selected.old.commands ++ spec.command_line line
        (listing_of (asked_by ask.now) (length (flat_map (sides_by ask.now.sides) choice.pairs))) choice.warnings ∷ []) }
    ensures pairs { OnOk result (selected.new.pairs ≡ selected.old.pairs
        ++ map (spec.side_line task.now.scope.linked.now (length selected.new.commands)) (flat_map (sides_by ask.now.sides) choice.pairs)) }
    ensures claims { OnOk result (selected.new.claims ≡ selected.old.claims
        ++ map (claim_for (length task.now.scope.linked.now.names.ins) ask.now.kind ask.now.edge task.now.judging choice.sets) (flat_map (sides_by ask.now.sides) choice.pairs)) }
{
    let Choice {
        pairs,
        sets,
        warnings,
    } = choice;
    let sides = ask.sides.of_pairs(alloc, &pairs)?;
    let listing = ask.listing(sides.len() as u64);
    selected.commands.push(CommandLine {
        line,
        listing,
        warnings,
    })?;
    let names = Names {
        linked: task.scope.linked,
        cells: task.cells,
    };
    let number = selected.commands.len() as u64;
    push_lines(alloc, &names, number, &sides, &mut selected.pairs)?;
    let terms = Terms {
        ports: task.scope.linked.names.ins.len(),
        kind: ask.kind,
        edge: ask.edge,
        judging: task.judging,
        sets: &sets,
    };
    push_claims(alloc, &terms, &sides, &mut selected.claims)
}
