//! The pairs of an exception that have a path.
ghost use Rattle.std.specs.Prelude.{◌≡◌, ◌++◌, All, IfOk, OnOk, map};
ghost use Rattle.net_model.specs.Netlist.{IsSound};
ghost use Rattle.net_model.specs.Fits.{IsStartIn, IsEndIn};
ghost use Rattle.net_paths.specs.Aims.{AreAimsOf};
ghost use Rattle.net_paths.specs.Searches.{IsSearchOf};
ghost use Rattle.exception_expand.specs.Pairs.{pair, pairs_between, IsConnected};
ghost use Rattle.exception_expand.specs.Cuts.{IsCut, AddsThose};

use crate::lists::Lists;
use net_model::{Design, End, PinSet, Start};
use net_paths::{Aims, Search};
use sdcv_base::Seq;
use std::alloc::{AllocError, Global};

/// A start and an end of a design.
#[derive(Clone, Copy, PartialEq, Eq)]
pub struct Pair {
    pub start: Start,
    pub end: End,
}

// What the pairs of one exception have in common: the through sets of their paths, and the ends among which theirs are.
#[derive(Clone, Copy)]
struct Route<'a> {
    design: &'a Design,
    sets: &'a Seq<PinSet>,
    aims: &'a Aims<'a>,
}

/// The pairs of the starts and the ends of an exception that a path connects through its sets, by start and then by end. It
/// stops at the first start at which there are more than `most`.
pub(crate) fn connected(
    alloc: Global,
    design: &Design,
    lists: &Lists,
    search: &mut Search,
    most: usize,
) -> Result<Seq<Pair>, AllocError>
    requires sound { IsSound design.now }
    requires starts { All (IsStartIn design.now) lists.now.starts }
    requires ends { All (IsEndIn design.now) lists.now.ends }
    requires search { IsSearchOf design.now search.old }
    ensures pairs { IfOk result (IsCut (IsConnected design.now lists.now.sets) (pairs_between lists.now.starts lists.now.ends) most) }
    ensures search { IsSearchOf design.now search.new }
{
    let aims = Aims::of(alloc, design, &lists.ends)?;
    let route = Route {
        design,
        sets: &lists.sets,
        aims: &aims,
    };
    let mut pairs = Seq::new(alloc);
    for k in 0..lists.starts.len() {
        if pairs.len() > most {
            return Ok(pairs);
        }
        add_start(alloc, &route, lists.starts.at(k), search, &mut pairs)?;
    }
    Ok(pairs)
}

// Adds the pairs of one start.
fn add_start(
    alloc: Global,
    route: &Route,
    start: Start,
    search: &mut Search,
    pairs: &mut Seq<Pair>,
) -> Result<(), AllocError>
    requires sound { IsSound route.now.design.now }
    requires start { IsStartIn route.now.design.now start }
    requires aims { AreAimsOf route.now.design.now route.now.aims.now }
    requires search { IsSearchOf route.now.design.now search.old }
    ensures pairs { OnOk result (AddsThose (IsConnected route.now.design.now route.now.sets.now) (map (pair start) route.now.aims.now.ends.now)
        pairs.old pairs.new) }
    ensures search { IsSearchOf route.now.design.now search.new }
{
    let ends = search.ends_from(alloc, route.design, &start, route.sets, route.aims)?;
    push_pairs(start, &ends, pairs)
}

fn push_pairs(start: Start, ends: &Seq<End>, pairs: &mut Seq<Pair>) -> Result<(), AllocError>
    ensures { OnOk result (pairs.new ≡ pairs.old ++ map (pair start) ends.now) }
{
    for k in 0..ends.len() {
        pairs.push(Pair {
            start,
            end: ends.at(k),
        })?;
    }
    Ok(())
}
