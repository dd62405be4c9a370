//! The clauses that hold in the drawn runs.
ghost use Rattle.std.specs.Prelude.{IfOk};
ghost use Rattle.net_model.specs.Netlist.{IsSound};
ghost use Rattle.drawn_runs.specs.Survivors.{AreSurvivors};

use crate::inputs::held_marks;
use crate::sifts::sift_live;
use crate::sims::Sim;
use net_model::{Design, InvClause};
use sdcv_base::Seq;
use std::alloc::{AllocError, Global};

/// So many live cycles does a drawn run have.
const LIVE_CYCLES: usize = 64;

/// The clauses that hold in every live cycle of the 64 drawn runs, in their order. Each of the others fails in a live cycle of one
/// of them.
///
/// All runs are simulated at once, a lane each, and each clause is one word a cycle. Where no clause is given, none is run.
pub fn survivors(
    alloc: Global,
    design: &Design,
    clauses: Seq<InvClause>,
) -> Result<Seq<InvClause>, AllocError>
    requires { IsSound design.now }
    ensures { IfOk result (AreSurvivors design.now clauses) }
{
    if clauses.is_empty() {
        return Ok(clauses);
    }
    let marks = held_marks(alloc, design)?;
    let mut sim = Sim::begin(alloc, design)?;
    let mut left = clauses;
    for t in 0..design.reset_len + LIVE_CYCLES {
        sim.settle(design, &marks, t);
        left = sift_live(left, t, design.reset_len, &sim.bits);
        sim.step(alloc, design)?;
    }
    Ok(left)
}
