//! What one exception selects.
ghost use Rattle.std.specs.Prelude.{IfOk, IfErr};
ghost use Rattle.net_model.specs.Netlist.{IsSound};
ghost use Rattle.net_paths.specs.Searches.{IsSearchOf};
ghost use Rattle.sdc_objects.specs.Tables.{IsTablesOf};
ghost use Rattle.exception_expand.specs.Asking.{asked_by};
ghost use Rattle.exception_expand.specs.Choices.{ArePointsOf, IsChoiceOf, IsChoiceCause};

use crate::asks::Ask;
use crate::lists::lists_of;
use crate::pairs::{Pair, connected};
use crate::points::Points;
use net_model::{MOST_SETS, PinSet};
use net_paths::Search;
use sdc_objects::Scope;
use sdcv_base::{LimitName, Seq};
use selected_types::{ExpandFault, Warning};
use std::alloc::Global;

/// The pairs of an exception, in the order of the design, the through sets of their claims, and its warnings.
#[derive(Drop)]
pub struct Choice {
    pub pairs: Seq<Pair>,
    pub sets: Seq<PinSet>,
    pub warnings: Seq<Warning>,
}

/// What an exception selects, at most `most` pairs.
pub fn choose(
    alloc: Global,
    scope: &Scope,
    points: &Points,
    ask: &Ask,
    search: &mut Search,
    most: usize,
) -> Result<Choice, ExpandFault>
    requires sound { IsSound scope.now.linked.now.design }
    requires tables { IsTablesOf scope.now.linked.now scope.now.tables.now }
    requires points { ArePointsOf scope.now.linked.now points.now }
    requires search { IsSearchOf scope.now.linked.now.design search.old }
    ensures ok { IfOk result (IsChoiceOf scope.now.linked.now scope.now.script.now scope.now.strict (asked_by ask.now).exception most) }
    ensures err { IfErr result (IsChoiceCause scope.now.linked.now scope.now.script.now scope.now.strict (asked_by ask.now).exception most) }
    ensures search { IsSearchOf scope.now.linked.now.design search.new }
{
    if ask.through.len() > MOST_SETS {
        return Err(ExpandFault::Limit(LimitName::Through, 5));
    }
    let mut warnings = Seq::new(alloc);
    let lists = lists_of(alloc, scope, points, ask, &mut warnings)?;
    let pairs = connected(alloc, &scope.linked.design, &lists, search, most)?;
    if pairs.len() > most {
        return Err(ExpandFault::Limit(LimitName::Pairs, 100_001));
    }
    Ok(Choice {
        pairs,
        sets: lists.sets,
        warnings,
    })
}
