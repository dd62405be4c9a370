//! A script selects one list of pairs in a design. The law is the contract of a call that does nothing.
ghost use Rattle.selected_types.specs.declared.faults.ExpandFault.TheVariants.{Memory};
ghost use Rattle.exception_expand.specs.Selections.{IsSelectionOf};
ghost use Rattle.exception_expand.specs.Causes.{IsExpandCause};
ghost use Rattle.one_design.specs.Answers.{IsOneAnswer};

use linked_types::Linked;
use run_options::Judging;
use script_types::Script;

/// A script selects at most one list of pairs in a linked design, each with one claim, and is above no limit beside it.
pub fn one_selection(linked: &Linked, script: &Script, judging: Judging)
    ensures { IsOneAnswer (IsSelectionOf linked.now script.now judging) (IsExpandCause linked.now script.now judging) Memory }
{}
