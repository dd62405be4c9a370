//! The clauses that hold after drawn stretches.
ghost use Rattle.std.specs.Prelude.{IfOk, OnOk};
ghost use Rattle.net_model.specs.Netlist.{IsSound};
ghost use Rattle.drawn_runs.specs.Stretches.{IsReady, IsThinned};

use crate::inputs::held_marks;
use crate::sims::Sim;
use crate::stretches::Stretches;
use net_model::{Design, InvClause, Lanes};
use sdcv_base::Seq;
use std::alloc::{AllocError, Global};

/// So many cycles of the drawn runs does it begin near.
const CYCLES: usize = 64;

/// So often does it begin near each.
const TRIES: usize = 4;

/// Tries the clauses in stretches that begin near these register bits.
fn tried_often(
    alloc: Global,
    design: &Design,
    stretches: &mut Stretches,
    base: &Seq<Lanes>,
    depth: usize,
    clauses: Seq<InvClause>,
) -> Result<Seq<InvClause>, AllocError>
    requires sound { IsSound design.now }
    requires ready { IsReady design.now stretches.old }
    ensures thinned { IfOk result (IsThinned design.now depth clauses) }
    ensures ready { OnOk result (IsReady design.now stretches.new) }
{
    let mut left = clauses;
    'tries: for _ in 0..TRIES {
        left = stretches.tried(alloc, design, base, depth, left)?;
    }
    Ok(left)
}

/// Of clauses that hold in the drawn runs, those that are left where each that fails after a stretch is left out, if the cycles of the
/// stretch before meet all clauses that were left then. So no clause is left out that an induction of that depth keeps.
///
/// The stretches begin in drawn states, sixty-four at once, and each clause is one word a cycle. In such a state the registers of a
/// clause that fails there have the bits of a cycle of a drawn run. Which states are tried is no promise. It pays where there are
/// thousands of clauses: a query takes the time of all of them, and shows of few that they are not kept.
pub fn thinned(
    alloc: Global,
    design: &Design,
    clauses: Seq<InvClause>,
    depth: usize,
) -> Result<Seq<InvClause>, AllocError>
    requires sound { IsSound design.now }
    ensures { IfOk result (IsThinned design.now depth clauses) }
{
    let marks = held_marks(alloc, design)?;
    let mut sim = Sim::begin(alloc, design)?;
    let mut stretches = Stretches::of(alloc, design)?;
    let mut left = clauses;
    for t in 0..design.reset_len + CYCLES {
        sim.settle(design, &marks, t);
        left = tried_often(alloc, design, &mut stretches, &sim.bits, depth, left)?;
        sim.step(alloc, design)?;
    }
    Ok(left)
}
