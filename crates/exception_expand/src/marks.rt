//! Those of all starts or of all ends that the objects of a list stand for.
ghost use Rattle.std.specs.Prelude.{◌≡◌, ◌++◌, ◌↔◌, ◌⊎◌, [], ℕ, true, Contains, Some, IfOk, OnOk, length, slice_get};
ghost use Rattle.net_model.specs.Netlist.{IsSound};
ghost use Rattle.net_paths.specs.Those.{AreThose};
ghost use Rattle.sdc_objects.specs.Tables.{IsTablesOf};
ghost use Rattle.sdc_objects.specs.Standing as standing;
ghost use Rattle.exception_expand.specs.Points as spec;

use crate::points::Listed;
use net_model::{Design, Edge};
use script_types::Object;
use sdc_objects::{Scope, meant};
use sdcv_base::Seq;
use selected_types::Warning;
use std::alloc::{AllocError, Global};

/// Those of all starts or ends, in the order of the design, that these objects stand for after an option of this edge; all of them where no objects are
/// given. Adds the warnings of the objects.
pub(crate) fn wanted<T: Listed>(
    alloc: Global,
    scope: &Scope,
    edge: Edge,
    all: &Seq<T>,
    objects: &Option<Seq<Object>>,
    warnings: &mut Seq<Warning>,
) -> Result<Seq<T>, AllocError>
    requires sound { IsSound scope.now.linked.now.design }
    requires tables { IsTablesOf scope.now.linked.now scope.now.tables.now }
    requires all { all.now ≡ T.all scope.now.linked.now.design }
    ensures those { IfOk result (AreThose
        (spec.IsMeant (standing.meant (T.column scope.now.linked.now scope.now.script.now scope.now.strict edge)
        scope.now.linked.now scope.now.script.now scope.now.strict T.at) objects.now) (T.all scope.now.linked.now.design)) }
    ensures warnings { OnOk result (warnings.new ≡ warnings.old ++
        standing.warnings (T.column scope.now.linked.now scope.now.script.now scope.now.strict edge)
        scope.now.linked.now scope.now.script.now scope.now.strict T.at (spec.given objects.now)) }
{
    match objects {
        Some(objects) => listed(alloc, scope, edge, all, objects, warnings),
        None => all.copy(alloc),
    }
}

fn listed<T: Listed>(
    alloc: Global,
    scope: &Scope,
    edge: Edge,
    all: &Seq<T>,
    objects: &Seq<Object>,
    warnings: &mut Seq<Warning>,
) -> Result<Seq<T>, AllocError>
    requires sound { IsSound scope.now.linked.now.design }
    requires tables { IsTablesOf scope.now.linked.now scope.now.tables.now }
    requires all { all.now ≡ T.all scope.now.linked.now.design }
    ensures those { IfOk result (AreThose
        (Contains (standing.meant (T.column scope.now.linked.now scope.now.script.now scope.now.strict edge)
        scope.now.linked.now scope.now.script.now scope.now.strict T.at objects.now)) (T.all scope.now.linked.now.design)) }
    ensures warnings { OnOk result (warnings.new ≡ warnings.old ++
        standing.warnings (T.column scope.now.linked.now scope.now.script.now scope.now.strict edge)
        scope.now.linked.now scope.now.script.now scope.now.strict T.at objects.now) }
{
    let items = meant::<T>(alloc, scope, edge, objects, warnings)?;
    among(alloc, &scope.linked.design, all, &items)
}

// Those of all that stand in a list, in the order of the design.
fn among<T: Listed>(
    alloc: Global,
    design: &Design,
    all: &Seq<T>,
    items: &Seq<T>,
) -> Result<Seq<T>, AllocError>
    requires sound { IsSound design.now }
    requires all { all.now ≡ T.all design.now }
    ensures { IfOk result (AreThose (Contains items.now) (T.all design.now)) }
{
    let mut marks = Seq::filled(alloc, false, all.len())?;
    mark_all(design, items, &mut marks);
    marked(alloc, &marks, all)
}

// Marks the places of all items.
fn mark_all<T: Listed>(design: &Design, items: &Seq<T>, marks: &mut Seq<bool>)
    requires sound { IsSound design.now }
    requires none { spec.AreMarks (Contains []) (T.all design.now) marks.old }
    ensures { spec.AreMarks (Contains items.now) (T.all design.now) marks.new }
{
    for k in 0..items.len() {
        mark(design, items.at(k), marks);
    }
}

// Marks the place of one item.
fn mark<T: Listed>(design: &Design, item: T, marks: &mut Seq<bool>)
    requires sound { IsSound design.now }
    requires len { length marks.old ≡ length (T.all design.now) }
    ensures len { length marks.new ≡ length (T.all design.now) }
    ensures marked { (k : ℕ) (x : T) → slice_get (T.all design.now) k ≡ Some x
        → (spec.has_mark marks.new k ≡ true ↔ (spec.has_mark marks.old k ≡ true ⊎ (item ≡ x))) }
{
    if let Some(place) = item.place_in(design) {
        marks.put(place, true);
    }
}

// The items that have a mark.
fn marked<T: Copy + Drop>(
    alloc: Global,
    marks: &Seq<bool>,
    all: &Seq<T>,
) -> Result<Seq<T>, AllocError>
    requires { length marks.now ≡ length all.now }
    ensures { IfOk result (λ found. found ≡ spec.marked marks.now all.now) }
{
    let mut found = Seq::new(alloc);
    for k in 0..all.len() {
        if marks.at(k) {
            found.push(all.at(k))?;
        }
    }
    Ok(found)
}
