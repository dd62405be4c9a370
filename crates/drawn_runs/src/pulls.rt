//! Register bits that are drawn, and then changed until clauses hold.
ghost use Rattle.std.specs.Prelude.{◌≡◌, length, IfOk};

use crate::draws::draw;
use crate::lane_steps::{both, either};
use crate::sifts::clause64;
use net_model::{InvClause, Lanes, Value};
use rand_pcg::Lcg64Xsh32;
use sdcv_base::Seq;
use std::alloc::{AllocError, Global};

/// So often are all clauses looked at.
const ROUNDS: usize = 8;

/// So many drawn words.
fn drawn_words(alloc: Global, count: usize, rng: &mut Lcg64Xsh32) -> Result<Seq<Lanes>, AllocError>
    ensures { IfOk result (λ words. length words ≡ count) }
{
    let mut words = Seq::new(alloc);
    'draws: for _ in 0..count {
        words.push(draw(rng))?;
    }
    Ok(words)
}

/// Gives a register the bit that it has in `base`, in these lanes.
fn pull_reg(reg: usize, lanes: Lanes, base: &Seq<Lanes>, bits: &mut Seq<Lanes>)
    ensures { length bits.new ≡ length bits.old }
{
    if reg < base.len() && reg < bits.len() {
        let own = both(bits.at(reg), lanes.complement());
        let pulled = both(base.at(reg), lanes);
        bits.put(reg, either(own, pulled));
    }
}

/// Gives the registers of a clause their bits of `base` in each lane in which it fails, and tells whether there is one.
fn pull_clause(clause: &InvClause, base: &Seq<Lanes>, bits: &mut Seq<Lanes>) -> bool
    ensures { length bits.new ≡ length bits.old }
{
    let lanes = clause64(clause, bits).complement();
    if lanes.0 == 0 {
        return false;
    }
    for lit in clause.lits.as_slice() {
        pull_reg(lit.reg, lanes, base, bits);
    }
    true
}

/// Pulls the registers of each clause that fails, and tells whether one did.
fn pull_once(clauses: &Seq<InvClause>, base: &Seq<Lanes>, bits: &mut Seq<Lanes>) -> bool
    ensures { length bits.new ≡ length bits.old }
{
    let mut pulled = false;
    for clause in clauses.as_slice() {
        let fails = pull_clause(clause, base, bits);
        pulled = pulled || fails;
    }
    pulled
}

/// Drawn words, one for each register, in which registers of clauses that fail have their bits of `base`. Where all clauses hold in
/// each lane of `base`, they mostly do then.
pub(crate) fn pulled_bits(
    alloc: Global,
    count: usize,
    rng: &mut Lcg64Xsh32,
    clauses: &Seq<InvClause>,
    base: &Seq<Lanes>,
) -> Result<Seq<Lanes>, AllocError>
    ensures { IfOk result (λ bits. length bits ≡ count) }
{
    let mut bits = drawn_words(alloc, count, rng)?;
    'rounds: for _ in 0..ROUNDS {
        if !pull_once(clauses, base, &mut bits) {
            return Ok(bits);
        }
    }
    Ok(bits)
}
