//! The ends to which paths lead from one start.
ghost use Rattle.std.specs.Prelude.{◌≡◌, All, IfOk, length};
ghost use Rattle.std.specs.List.Sorted.{IsStrictlyIncreasing};
ghost use Rattle.net_model.specs.Fits.{IsEndIn};
ghost use Rattle.net_model.specs.Netlist.{AllBelow};
ghost use Rattle.net_model.specs.Paths.{HasPath};
ghost use Rattle.net_paths.specs.Aims.{AreAimsOf, ArePlaces};
ghost use Rattle.net_paths.specs.Arrivals.{IsReach, IsInOrder, StandOnce, StandsAt};
ghost use Rattle.net_paths.specs.Those.{AreThose};

use crate::aims::{Aims, Places};
use crate::arrivals::arrivals;
use crate::paths::meets_at_end;
use crate::reaches::Reach;
use net_model::End;
use sdcv_base::Seq;
use std::alloc::{AllocError, Global};

/// Those of these ends, in their order, to which a path leads from the start of a grown cone and meets the sets. It looks
/// at the pins that read the nets of the cone, or at each end where there are no more ends than nets.
pub(crate) fn ends_of(alloc: Global, reach: &Reach, aims: &Aims) -> Result<Seq<End>, AllocError>
    requires reach { IsReach reach.now }
    requires aims { AreAimsOf reach.now.launch.now.design.now aims.now }
    ensures { IfOk result (AreThose (λ end. HasPath reach.now.launch.now.design.now reach.now.launch.now.start.now end reach.now.launch.now.sets.now)
        aims.now.ends.now) }
{
    match &aims.places {
        Some(places) if reach.cone.nets.len() < aims.ends.len() => {
            ends_by_pins(alloc, reach, aims.ends, places)
        }
        _ => ends_one_by_one(alloc, reach, aims.ends),
    }
}

// The same by the pins that read the nets of the cone.
fn ends_by_pins(
    alloc: Global,
    reach: &Reach,
    ends: &Seq<End>,
    places: &Places,
) -> Result<Seq<End>, AllocError>
    requires reach { IsReach reach.now }
    requires ends { All (IsEndIn reach.now.launch.now.design.now) ends.now }
    requires places { ArePlaces reach.now.launch.now.design.now ends.now places.now }
    ensures { IfOk result (AreThose (λ end. HasPath reach.now.launch.now.design.now reach.now.launch.now.start.now end reach.now.launch.now.sets.now)
        ends.now) }
{
    let found = in_order(arrivals(alloc, reach, places)?);
    taken(alloc, ends, found.as_slice())
}

// The same numbers, each once, ascending.
fn in_order(numbers: Vec<usize>) -> Vec<usize>
    ensures { IsInOrder numbers.items result.items }
{
    let mut ascending = numbers;
    ascending.sort_unstable();
    ascending.dedup();
    ascending
}

// The ends that stand at these places.
fn taken(alloc: Global, ends: &Seq<End>, places: &[usize]) -> Result<Seq<End>, AllocError>
    requires once { StandOnce ends.now }
    requires within { AllBelow (length ends.now) places.now }
    requires ascending { IsStrictlyIncreasing places.now }
    ensures { IfOk result (AreThose (StandsAt ends.now places.now) ends.now) }
{
    let mut found = Seq::new(alloc);
    for place in places {
        found.push(ends.at(*place))?;
    }
    Ok(found)
}

// The same by a look at each end.
fn ends_one_by_one(alloc: Global, reach: &Reach, ends: &Seq<End>) -> Result<Seq<End>, AllocError>
    requires reach { IsReach reach.now }
    requires ends { All (IsEndIn reach.now.launch.now.design.now) ends.now }
    ensures { IfOk result (AreThose (λ end. HasPath reach.now.launch.now.design.now reach.now.launch.now.start.now end reach.now.launch.now.sets.now)
        ends.now) }
{
    let mut found = Seq::new(alloc);
    for k in 0..ends.len() {
        let end = ends.at(k);
        if meets_at_end(
            reach.launch.design,
            reach.launch.sets,
            &reach.cone.levels,
            &end,
        ) {
            found.push(end)?;
        }
    }
    Ok(found)
}
