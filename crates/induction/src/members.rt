//! Clauses that are left, with the derivations of their base queries.
ghost use Rattle.std.specs.Prelude.{◌≡◌, ◌+◌, ◌<◌, ◌≤◌, ◌++◌, map, filter, drop, take, length, slice_get, Some, IfOk};
ghost use Rattle.net_model.specs.Queries as queries;
ghost use Rattle.induction.specs.Members.{clause_of, holds_of, proofs_of};

use net_model::{Cycle, InvClause};
use proof_log::Derivation;
use sdcv_base::Seq;
use std::alloc::{AllocError, Global};
use verdicts::InvProof;

/// A clause, and derivations that refute its base queries, in the order of their offsets.
#[derive(Drop)]
pub(crate) struct Member {
    pub clause: InvClause,
    pub base: Seq<Derivation>,
}

/// Whether a clause holds in a cycle. A bit that the cycle does not have counts as 0.
pub fn holds_in(cycle: &Cycle, clause: &InvClause) -> bool
    ensures { result ≡ queries.clause_holds cycle.now clause.now }
{
    for lit in clause.lits.as_slice() {
        let bit = cycle.bits.as_slice().get(lit.reg).copied().unwrap_or(false);
        if bit == lit.value {
            return true;
        }
    }
    false
}

/// An equal clause.
pub(crate) fn copy_of(alloc: Global, clause: &InvClause) -> Result<InvClause, AllocError>
    ensures { IfOk result (λ c. c ≡ clause.now) }
{
    let lits = clause.lits.copy(alloc)?;
    Ok(InvClause { lits })
}

/// The clauses of the members, copied.
pub(crate) fn clauses_of(alloc: Global, members: &Seq<Member>) -> Result<Seq<InvClause>, AllocError>
    ensures { IfOk result (λ cs. cs ≡ map clause_of members.now) }
{
    let mut clauses = Seq::new(alloc);
    for k in 0..members.len() {
        let clause = copy_of(alloc, &members.item(k).clause)?;
        clauses.push(clause)?;
    }
    Ok(clauses)
}

/// The members whose clauses hold in a cycle, those from a place on first.
pub(crate) fn holding_in(members: Seq<Member>, place: usize, cycle: &Cycle) -> Seq<Member>
    requires { place ≤ length members }
    ensures { result ≡ filter (holds_of cycle.now) (drop place members ++ take place members) }
{
    let mut rest = members.into_vec();
    rest.rotate_left(place);
    rest.retain(|member| holds_in(cycle, &member.clause));
    Seq::from_vec(rest)
}

/// The clause of the member at a place, and the other members, those after it first.
pub(crate) fn take_out(members: Seq<Member>, place: usize) -> (InvClause, Seq<Member>)
    requires { place < length members }
    ensures clause { slice_get (map clause_of members) place ≡ Some result.0 }
    ensures others { result.1 ≡ drop (place + 1) members ++ take place members }
{
    let mut rest = members.into_vec();
    let member = rest.remove(place);
    rest.rotate_left(place);
    (member.clause, Seq::from_vec(rest))
}

/// The derivations of the members, with that of the step query at the same place.
pub(crate) fn proofs_of(
    alloc: Global,
    members: Seq<Member>,
    steps: Seq<Derivation>,
) -> Result<Seq<InvProof>, AllocError>
    requires { length members ≡ length steps }
    ensures { IfOk result (λ proofs. proofs ≡ proofs_of members steps) }
{
    let mut members = members.into_vec();
    let mut steps = steps.into_vec();
    let mut proofs = Vec::new(alloc);
    while let Some(member) = members.pop() {
        let Some(step) = steps.pop() else {
            break;
        };
        let base = member.base;
        proofs.push(InvProof { base, step })?;
    }
    proofs.reverse();
    Ok(Seq::from_vec(proofs))
}
