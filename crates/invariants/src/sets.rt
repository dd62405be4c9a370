//! The clauses that are kept for some claims.
ghost use Rattle.std.specs.Prelude.{◌<◌, ◌≤◌, All, IfOk};
ghost use Rattle.net_model.specs.Netlist.{IsSound};
ghost use Rattle.net_model.specs.Fits.{Fits};
ghost use Rattle.net_model.specs.Fits.{NamesRegs};
ghost use Rattle.verdicts.specs.Inductive.{AreAlwaysMet};
ghost use Rattle.verdicts.specs.Logs.{own_coding};
ghost use Rattle.verdicts.specs.Certified.{ProveKept};
ghost use Rattle.verdict_types.specs.Forms.{IsKeptClause, IsSetInForm};
ghost use Rattle.invariants.specs.Invariants.{AreInvariants};
ghost use Rattle.invariants.specs.Tried.{AreTried};

use drawn_runs::{survivors, thinned};
use induction::greatest_set;
use inv_candidates::{candidates, with_more};
use net_model::{Claim, Design, InvClause};
use sdcv_base::Seq;
use std::alloc::{AllocError, Global};
use verdicts::InvSet;

/// So many further clauses are few: their queries are soon asked.
const FEW_FURTHER: usize = 256;

/// The greatest inductive set, at a depth, of the clauses near some claims and of further ones. A clause whose query spends the
/// budget is left out, with an entry. The further clauses may be of any length and count for all claims; none of them is taken
/// on trust.
///
/// A clause that fails in a live cycle of a run from reset is in no inductive set, so no query is asked about those that fail in
/// one of the 64 drawn runs. Where there are more than 256 further clauses, none is asked either about those that fail after a drawn
/// stretch that meets all that are left.
pub fn invariants(
    alloc: Global,
    design: &Design,
    claims: &Seq<Claim>,
    extra: &[InvClause],
    depth: usize,
    budget: u64,
) -> Result<InvSet, AllocError>
    requires sound { IsSound design.now }
    requires fit { All (Fits design.now) claims.now }
    requires extra_names { All (NamesRegs design.now) extra.now }
    requires extra_form { All IsKeptClause extra.now }
    requires few { depth ≤ 8 }
    requires some { 0 < budget }
    ensures kept { IfOk result (AreInvariants design.now claims.now extra.now depth budget) }
    ensures names { IfOk result (λ set. All (NamesRegs design.now) set.kept) }
    ensures met { IfOk result (λ set. AreAlwaysMet design.now set.kept) }
    ensures proved { IfOk result (λ set. ProveKept own_coding design.now set.kept set.depth set.proofs) }
    ensures in_form { IfOk result IsSetInForm }
{
    let own = candidates(alloc, design, claims)?;
    let clauses = with_more(alloc, own, extra)?;
    let many = extra.len() > FEW_FURTHER;
    let left = tried(alloc, design, clauses, depth, many)?;
    let set = greatest_set(alloc, design, &left, depth, budget)?;
    Ok(set)
}

/// The clauses about which queries are asked: those that hold in the drawn runs, and where they are many after drawn stretches too.
fn tried(
    alloc: Global,
    design: &Design,
    clauses: Seq<InvClause>,
    depth: usize,
    many: bool,
) -> Result<Seq<InvClause>, AllocError>
    requires { IsSound design.now }
    ensures { IfOk result (AreTried design.now depth clauses) }
{
    let left = survivors(alloc, design, clauses)?;
    if !many {
        return Ok(left);
    }
    let fewer = thinned(alloc, design, left, depth)?;
    Ok(fewer)
}
