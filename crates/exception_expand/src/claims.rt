//! The claims of an exception.
ghost use Rattle.std.specs.Prelude.{◌≡◌, nat_lt, if◌then◌else◌, ◌++◌, IfOk, OnOk, map};
ghost use Rattle.exception_expand.specs.Pairs.{claim_for};
ghost use Rattle.exception_expand.specs.Pairs as spec;

use crate::sides::Side;
use net_model::{Claim, Edge, Kind, PinSet, Start};
use run_options::Judging;
use sdcv_base::Seq;
use std::alloc::{AllocError, Global};

/// What the claims of one exception have in common, and how many inputs are bits of ports.
#[derive(Clone, Copy)]
pub(crate) struct Terms<'a> {
    pub ports: usize,
    pub kind: Kind,
    pub edge: Edge,
    pub judging: Judging,
    pub sets: &'a Seq<PinSet>,
}

/// Adds a claim of each side of a pair.
pub(crate) fn push_claims(
    alloc: Global,
    terms: &Terms,
    sides: &Seq<Side>,
    claims: &mut Seq<Claim>,
) -> Result<(), AllocError>
    ensures { OnOk result (claims.new ≡ claims.old ++ map (claim_for terms.now.ports terms.now.kind terms.now.edge terms.now.judging terms.now.sets.now) sides.now) }
{
    for k in 0..sides.len() {
        claims.push(claim_of(alloc, terms, sides.at(k))?)?;
    }
    Ok(())
}

fn claim_of(alloc: Global, terms: &Terms, side: Side) -> Result<Claim, AllocError>
    ensures { IfOk result (λ claim. claim ≡ claim_for terms.now.ports terms.now.kind terms.now.edge terms.now.judging terms.now.sets.now side) }
{
    Ok(Claim {
        kind: terms.kind,
        edge: edge_of(terms, side.pair.start),
        lag: lag_for(side.early, terms.kind, terms.judging.lag),
        hazard: terms.judging.hazard,
        early: side.early,
        start: side.pair.start,
        end: side.pair.end,
        through: copied(alloc, terms.sets)?,
    })
}

fn edge_of(terms: &Terms, start: Start) -> Edge
    ensures { result ≡ spec.edge_of terms.now.ports terms.now.judging.strict terms.now.edge start }
{
    match terms.edge {
        Edge::Rise => rise_of(terms.ports, terms.judging.strict, start),
        Edge::Any | Edge::Fall => terms.edge,
    }
}

// In a strict run the rise of what clocks a register makes both changes of its bit.
fn rise_of(ports: usize, strict: bool, start: Start) -> Edge
    ensures { result ≡ spec.rise_of ports strict start }
{
    match (strict, start) {
        (true, Start::Reg(_)) => Edge::Any,
        (true, Start::Input(input)) => input_rise(ports, input),
        (false, _) => Edge::Rise,
    }
}

// An input after those of the ports is that of a cell that is cut out.
fn input_rise(ports: usize, input: usize) -> Edge
    ensures { result ≡ (if nat_lt input ports then Edge.Rise else Edge.Any) }
{
    if input < ports { Edge::Rise } else { Edge::Any }
}

// A multicycle path has no lag, and neither has the early side of a false path.
fn lag_for(early: bool, kind: Kind, lag: u8) -> u8
    ensures { result ≡ spec.lag_for early kind lag }
{
    match kind {
        Kind::False => late_lag(early, lag),
        Kind::Multi(_) => 0,
    }
}

fn late_lag(early: bool, lag: u8) -> u8
    ensures { result ≡ (if early then 0 else lag) }
{
    if early { 0 } else { lag }
}

fn copied(alloc: Global, sets: &Seq<PinSet>) -> Result<Seq<PinSet>, AllocError>
    ensures { IfOk result (λ copies. copies ≡ sets.now) }
{
    let mut copies = Seq::new(alloc);
    for k in 0..sets.len() {
        copies.push(PinSet::of(alloc, sets.item(k).pins().as_slice())?)?;
    }
    Ok(copies)
}
