//! What the groups of an exception are. The law is the contract of a call that does nothing, for callers that cite it.
ghost use Rattle.std.specs.Prelude.{Bool, List, All};
ghost use Rattle.script_types.specs.declared.scripts.Script.{Script};
ghost use Rattle.selected_types.specs.declared.selections.Selected.{Selected};
ghost use Rattle.verdict_types.specs.declared.outcomes.Verdict.{Verdict};
ghost use Rattle.mend_groups.specs.declared.ports.Ports.{Ports};
ghost use Rattle.mend_groups.specs.Laws.{AreItsGroups};
ghost use Rattle.mend_groups.specs.Parts.{parts_of};

/// The groups of each exception of a script are products of starts and ends, all of kept pairs, and each pair of the exception that
/// can be written stands in one of them once.
pub fn groups_are_exact()
    ensures { (ports : Ports) (script : Script) (hold : Bool) (s : Selected) (verdicts : List Verdict)
        → All (AreItsGroups s verdicts) (parts_of ports script hold s verdicts) }
{}
