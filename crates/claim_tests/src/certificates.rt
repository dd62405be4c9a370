//! What certificates tell and list, beside what is worked out by hand.
ghost use Rattle.std.specs.Prelude.{All};
ghost use Rattle.net_model.specs.Netlist.{IsSound};
ghost use Rattle.net_model.specs.Fits.{Fits};

use crate::cases::{claims_of, sound_design};
use crate::finding::find;
use crate::machines::{DRAINS, SWAP};
use crate::wanted_answers::ends_early;
use cert_call::check_cert;
use cert_text::read_cert;
use cert_values::{Cert, CertFault, PairProof};
use net_model::{Claim, Design};
use net_samples::Ask::{From, Hazard, In, Multi, Out, To};
use net_samples::{Ask, GATES, PORTS, Part};
use sdcv_base::Seq;
use std::alloc::{AllocError, Global};
use std::process::Abort;
use verdicts::{Limits, Proof};

/// What is told of a claim, by its number: that it judges nothing, that its start is fixed, or a proof at a depth.
#[derive(Clone, Copy)]
enum Told {
    Single(u64),
    Fixed(u64),
    At(u64, usize),
}

use Told::{At, Fixed, Single};

/// A design, its claims, and the depth of the kept clauses; how many are kept, and what is told of the claims that are justified;
/// and whether a derivation is refused as one of the first version.
struct Row(
    &'static [Part],
    &'static [&'static [Ask]],
    usize,
    usize,
    &'static [Told],
    bool,
);

const LIMITS: Limits = Limits {
    depth: 8,
    budget: 20_000,
};

const ROWS: &[Row] = &[
    // Of registers 2 and 3 exactly one is 1, which two clauses say. So register 1 keeps its bit in the cycle of the toggle, and
    // takes the new one in the next cycle. A choice has eight rows and six prime cubes, so the clauses of the other version have
    // other numbers.
    Row(
        SWAP,
        &[&[Multi(2)], &[Multi(3)], &[Multi(1)], &[In(1)]],
        1,
        2,
        &[At(1, 0), Single(3), Fixed(4)],
        true,
    ),
    // Register 3 is 0 after one cycle and register 2 after two, from which on it does not toggle.
    Row(
        DRAINS,
        &[&[], &[From(2)]],
        0,
        0,
        &[At(1, 1), At(2, 2)],
        false,
    ),
    // The gates may glitch.
    Row(GATES, &[&[], &[Hazard]], 0, 0, &[At(1, 0)], false),
    // Input 2 is always 0. Input 0 shows at the output.
    Row(
        PORTS,
        &[
            &[In(2), Out(0), Multi(1)],
            &[In(2), Out(0)],
            &[In(0), Out(0)],
        ],
        1,
        0,
        &[Single(1), Fixed(2)],
        false,
    ),
];

fn number_of(told: Told) -> u64 {
    match told {
        Single(number) | Fixed(number) | At(number, _) => number,
    }
}

fn is_told(pair: &PairProof, told: Told) -> bool {
    pair.number == number_of(told)
        && match (&pair.proof, told) {
            (Proof::Single, Single(_)) | (Proof::Fixed, Fixed(_)) => true,
            (Proof::Depth { depth, .. }, At(_, at)) => *depth == at,
            _ => false,
        }
}

// The certificate tells exactly that, in this order.
fn tells(cert: &Cert, want: &[Told]) -> bool {
    if cert.pairs.len() != want.len() {
        return false;
    }
    for k in 0..want.len() {
        if !is_told(cert.pairs.item(k), want[k]) {
            return false;
        }
    }
    true
}

// The numbers are exactly those, in this order.
fn lists(numbers: &Seq<u64>, want: &[Told]) -> bool {
    if numbers.len() != want.len() {
        return false;
    }
    for k in 0..want.len() {
        if numbers.at(k) != number_of(want[k]) {
            return false;
        }
    }
    true
}

// The text is read as what is to be told, and that is accepted.
fn is_told_by(alloc: Global, text: &[u8], row: &Row) -> Result<bool, CertFault> {
    let cert = read_cert(alloc, text)?;
    Ok(cert.kept.len() == row.3 && tells(&cert, row.4))
}

fn is_accepted(
    alloc: Global,
    design: &Design,
    claims: &Seq<Claim>,
    text: &[u8],
    want: &[Told],
) -> Result<bool, CertFault>
    requires sound { IsSound design.now }
    requires fit { All (Fits design.now) claims.now }
{
    let numbers = check_cert(alloc, design, claims.as_slice(), text)?;
    Ok(lists(&numbers, want))
}

// A derivation is refused where the text says version 1 in the place of 2.
fn is_refused_as_first(
    alloc: Global,
    design: &Design,
    claims: &Seq<Claim>,
    text: &[u8],
) -> Result<bool, CertFault>
    requires sound { IsSound design.now }
    requires fit { All (Fits design.now) claims.now }
{
    let mut other = Seq::of(alloc, text)?;
    if other.len() <= 10 || other.at(10) != b'2' {
        return Ok(false);
    }
    other.put(10, b'1');
    match check_cert(alloc, design, claims.as_slice(), other.as_slice()).err() {
        Some(CertFault::Invariant(..) | CertFault::Pair(..)) => Ok(true),
        _ => Ok(false),
    }
}

fn is_text_right(
    alloc: Global,
    design: &Design,
    claims: &Seq<Claim>,
    text: &[u8],
    row: &Row,
) -> Result<bool, CertFault>
    requires sound { IsSound design.now }
    requires fit { All (Fits design.now) claims.now }
{
    Ok(
        is_told_by(alloc, text, row)?
            && is_accepted(alloc, design, claims, text, row.4)?
            && ends_early(alloc, design, claims, text)
            && (!row.5 || is_refused_as_first(alloc, design, claims, text)?),
    )
}

fn is_found(
    rt: &impl Abort,
    alloc: Global,
    design: &Design,
    claims: &Seq<Claim>,
    row: &Row,
) -> Result<bool, CertFault>
    requires sound { IsSound design.now }
    requires fit { All (Fits design.now) claims.now }
{
    assert!(rt; row.2 <= 8);
    let found = find(alloc, design, claims, row.2, LIMITS)?;
    is_text_right(alloc, design, claims, found.text.as_slice(), row)
}

fn is_right_of(
    rt: &impl Abort,
    alloc: Global,
    design: &Design,
    row: &Row,
) -> Result<bool, CertFault>
    requires sound { IsSound design.now }
{
    let claims = claims_of(rt, alloc, design, row.1)?;
    is_found(rt, alloc, design, &claims, row)
}

fn is_right(rt: &impl Abort, alloc: Global, row: &Row) -> Result<bool, CertFault> {
    let design = sound_design(rt, alloc, row.0)?;
    is_right_of(rt, alloc, &design, row)
}

#[test]
fn what_is_found_is_accepted_whole_and_no_front_of_it(rt: HostRuntime) {
    for row in ROWS {
        assert!(rt; is_right(&rt, rt.alloc(), row) == Ok(true));
    }
}
