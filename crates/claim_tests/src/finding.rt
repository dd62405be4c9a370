//! From claims to the text of a certificate that is accepted.
ghost use Rattle.std.specs.Prelude.{◌≤◌, ◌<◌, All, IfOk};
ghost use Rattle.net_model.specs.Netlist.{IsSound};
ghost use Rattle.net_model.specs.Fits.{Fits};
ghost use Rattle.net_model.specs.Fits.{NamesRegs};
ghost use Rattle.verdicts.specs.Inductive.{AreAlwaysMet};
ghost use Rattle.verdict_types.specs.Forms.{IsVerdictInForm};
ghost use Rattle.cert_defs.specs.Accepted.{AreRightVerdicts, justified_numbers};
ghost use Rattle.cert_call.specs.Texts.{IsAcceptedText};

use cert_call::found_is_writable;
use cert_text::write_cert;
use invariants::invariants;
use net_model::{Claim, Design};
use pair_prove::prove;
use query_asks::Prepared;
use sdcv_base::Seq;
use std::alloc::{AllocError, Global};
use verdicts::{InvSet, Limits, Verdict};

/// The verdicts on some claims, and the text of their certificate.
#[derive(Drop)]
pub struct Found {
    pub verdicts: Seq<Verdict>,
    pub text: Vec<u8>,
}

/// The verdict on each claim, with the kept clauses.
fn verdicts_on(
    alloc: Global,
    design: &Prepared,
    claims: &Seq<Claim>,
    inv: &InvSet,
    limits: Limits,
) -> Result<Seq<Verdict>, AllocError>
    requires sound { IsSound design.now }
    requires fit { All (Fits design.now) claims.now }
    requires names { All (NamesRegs design.now) inv.now.kept }
    requires met { AreAlwaysMet design.now inv.now.kept }
    requires few { limits.depth ≤ 64 }
    requires some { 0 < limits.budget }
    ensures right { IfOk result (AreRightVerdicts design.now claims.now inv.now.kept limits) }
    ensures in_form { IfOk result (All IsVerdictInForm) }
{
    let mut verdicts = Seq::new(alloc);
    for place in 0..claims.len() {
        let verdict = prove(alloc, design, claims.item(place), inv, &limits)?;
        verdicts.push(verdict)?;
    }
    Ok(verdicts)
}

/// The same, of a design that is not prepared.
fn verdicts_of(
    alloc: Global,
    design: &Design,
    claims: &Seq<Claim>,
    inv: &InvSet,
    limits: Limits,
) -> Result<Seq<Verdict>, AllocError>
    requires sound { IsSound design.now }
    requires fit { All (Fits design.now) claims.now }
    requires names { All (NamesRegs design.now) inv.now.kept }
    requires met { AreAlwaysMet design.now inv.now.kept }
    requires few { limits.depth ≤ 64 }
    requires some { 0 < limits.budget }
    ensures right { IfOk result (AreRightVerdicts design.now claims.now inv.now.kept limits) }
    ensures in_form { IfOk result (All IsVerdictInForm) }
{
    let prepared = Prepared::of(alloc, design)?;
    verdicts_on(alloc, &prepared, claims, inv, limits)
}

/// The verdicts on some claims, with clauses kept at a depth, and the text of their certificate.
pub fn find(
    alloc: Global,
    design: &Design,
    claims: &Seq<Claim>,
    depth: usize,
    limits: Limits,
) -> Result<Found, AllocError>
    requires sound { IsSound design.now }
    requires fit { All (Fits design.now) claims.now }
    requires shallow { depth ≤ 8 }
    requires few { limits.depth ≤ 64 }
    requires some { 0 < limits.budget }
    ensures { IfOk result (λ f. IsAcceptedText design.now claims.now f.text.items (justified_numbers f.verdicts)) }
{
    let inv = invariants(alloc, design, claims, &[], depth, limits.budget)?;
    let verdicts = verdicts_of(alloc, design, claims, &inv, limits)?;
    let text = write_cert(alloc, verdicts.as_slice(), &inv)?;
    found_is_writable(design, claims, &inv, limits, &verdicts);
    Ok(Found { verdicts, text })
}
