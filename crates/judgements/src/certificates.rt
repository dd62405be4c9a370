//! The certificate of what is found out.
ghost use Rattle.std.specs.Prelude.{ℕ, List, IfOk};
ghost use Rattle.net_model.specs.declared.invariants.InvClause.{InvClause as InvClauseRecord};
ghost use Rattle.judgements.specs.Judgements.{AreAllInForm, AreJudged};
ghost use Rattle.judgements.specs.Certificates.{IsCertificateOf};

use crate::judged::Judged;
use cert_call::written_is_accepted;
use cert_text::write_cert;
use net_model::{Claim, Design};
use sdcv_base::Seq;
use std::alloc::{AllocError, Global};
use verdicts::Limits;

/// The text of the certificate of the verdicts on some claims. Its check needs no search, and accepts it with exactly the
/// claims that are justified.
pub fn certificate(
    alloc: Global,
    design: &Design,
    claims: &Seq<Claim>,
    limits: &Limits,
    judged: &Judged,
) -> Result<Vec<u8>, AllocError>
    requires judged { (extra : List InvClauseRecord) × (inv_depth : ℕ) × AreJudged design.now claims.now extra inv_depth limits.now judged.now }
    requires in_form { AreAllInForm judged.now }
    ensures { IfOk result (λ bytes. IsCertificateOf design.now claims.now judged.now bytes.items) }
{
    let verdicts = judged.verdicts.as_slice();
    let bytes = write_cert(alloc, verdicts, &judged.inv)?;
    written_is_accepted(
        design,
        claims.as_slice(),
        &judged.inv,
        *limits,
        verdicts,
        &bytes,
    );
    Ok(bytes)
}
