//! Queries about designs, as lists of parts.
use crate::parts::{Part, design};
use net_model::{Claim, Design, Edge, End, InvClause, Kind, PinRef, PinSet, Start, StateLit};
use sdcv_base::Seq;
use std::alloc::{AllocError, Global};

/// A clause: registers with values, of which one is to be there.
pub type Lits = &'static [(usize, bool)];

/// A part of a query. It is about a plain false path from register 0 to register 1, unless parts say otherwise.
pub enum Ask {
    From(usize),
    To(usize),
    In(usize),
    Out(usize),
    Multi(u8),
    /// The start rises.
    Rises,
    /// It falls.
    Falls,
    /// Judged over so many cycles of lag.
    Lag(u8),
    /// On its early side.
    Early,
    Hazard,
    /// Through this pin.
    Via(PinRef),
    /// Through one of these two.
    Either(PinRef, PinRef),
    /// A clause that is kept.
    Keeps(Lits),
    /// Not about a path, but about this clause, which comes first.
    Fails(Lits),
}

/// A design, and a query about its claim, or else about the first of its clauses.
#[derive(Drop)]
pub struct Case {
    pub design: Design,
    pub claim: Claim,
    pub has_claim: bool,
    pub clauses: Seq<InvClause>,
}

fn clause(alloc: Global, pairs: Lits) -> Result<InvClause, AllocError> {
    let mut lits = Seq::new(alloc);
    for (reg, value) in pairs {
        let (reg, value) = (*reg, *value);
        lits.push(StateLit { reg, value })?;
    }
    Ok(InvClause { lits })
}

fn add_ask(alloc: Global, case: &mut Case, ask: &Ask) -> Result<(), AllocError> {
    let claim = &mut case.claim;
    match *ask {
        Ask::From(reg) => claim.start = Start::Reg(reg),
        Ask::To(reg) => claim.end = End::Reg(reg),
        Ask::In(input) => claim.start = Start::Input(input),
        Ask::Out(output) => claim.end = End::Output(output),
        Ask::Multi(multiplier) => claim.kind = Kind::Multi(multiplier),
        Ask::Rises => claim.edge = Edge::Rise,
        Ask::Falls => claim.edge = Edge::Fall,
        Ask::Lag(cycles) => claim.lag = cycles,
        Ask::Early => claim.early = true,
        Ask::Hazard => claim.hazard = true,
        Ask::Via(pin) => claim.through.push(PinSet::of(alloc, &[pin])?)?,
        Ask::Either(first, second) => claim.through.push(PinSet::of(alloc, &[first, second])?)?,
        Ask::Keeps(lits) => case.clauses.push(clause(alloc, lits)?)?,
        Ask::Fails(lits) => {
            case.clauses.push(clause(alloc, lits)?)?;
            case.has_claim = false;
        }
    }
    Ok(())
}

/// The design of these parts, and the query that the others say.
pub fn case_of(alloc: Global, parts: &[Part], query: &[Ask]) -> Result<Case, AllocError> {
    let mut case = Case {
        design: design(alloc, parts)?,
        claim: Claim {
            kind: Kind::False,
            edge: Edge::Any,
            lag: 0,
            hazard: false,
            early: false,
            start: Start::Reg(0),
            end: End::Reg(1),
            through: Seq::new(alloc),
        },
        has_claim: true,
        clauses: Seq::new(alloc),
    };
    for ask in query {
        add_ask(alloc, &mut case, ask)?;
    }
    Ok(case)
}
