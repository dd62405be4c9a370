//! What the lists of an exception mean.
ghost use Rattle.std.specs.Prelude.{◌≡◌, ◌++◌, IfOk, OnOk};
ghost use Rattle.sdc_objects.specs.Tables.{IsTablesOf};
ghost use Rattle.net_model.specs.Netlist.{IsSound};
ghost use Rattle.exception_expand.specs.Choices.{ArePointsOf, AreListsOf};
ghost use Rattle.exception_expand.specs.Asking.{asked_by};
ghost use Rattle.exception_expand.specs.Selections.{exception_warnings};

use crate::asks::Ask;
use crate::marks::wanted;
use crate::points::Points;
use crate::sets::pin_sets;
use net_model::{Edge, End, PinSet, Start};
use sdc_objects::Scope;
use sdcv_base::Seq;
use selected_types::Warning;
use std::alloc::{AllocError, Global};

/// The starts and the ends of an exception, in the order of the design, and its through sets in their own.
#[derive(Drop)]
pub struct Lists {
    pub starts: Seq<Start>,
    pub sets: Seq<PinSet>,
    pub ends: Seq<End>,
}

/// The lists of an exception. Adds the warnings of its objects, those after `-from` or the like first, and those after `-to` last.
pub fn lists_of(
    alloc: Global,
    scope: &Scope,
    points: &Points,
    ask: &Ask,
    warnings: &mut Seq<Warning>,
) -> Result<Lists, AllocError>
    requires sound { IsSound scope.now.linked.now.design }
    requires tables { IsTablesOf scope.now.linked.now scope.now.tables.now }
    requires points { ArePointsOf scope.now.linked.now points.now }
    ensures lists { IfOk result (AreListsOf scope.now.linked.now scope.now.script.now scope.now.strict (asked_by ask.now).exception) }
    ensures warnings { OnOk result (warnings.new ≡ warnings.old ++
        exception_warnings scope.now.linked.now scope.now.script.now scope.now.strict (asked_by ask.now).exception) }
{
    let meant = wanted(alloc, scope, ask.edge, &points.starts, ask.from, warnings)?;
    let starts = points.begun(alloc, &meant)?;
    let sets = pin_sets(alloc, scope, ask.through, warnings)?;
    let ends = wanted(alloc, scope, Edge::Any, &points.ends, ask.to, warnings)?;
    Ok(Lists { starts, sets, ends })
}
