//! The check over bytes, and the law on what was found.
ghost use Rattle.std.specs.Prelude.{◌≤◌, ℕ, List, All, IfOk, IfErr};
ghost use Rattle.net_model.specs.Netlist.{IsSound};
ghost use Rattle.net_model.specs.Fits.{Fits};
ghost use Rattle.net_model.specs.Fits.{NamesRegs};
ghost use Rattle.verdicts.specs.Logs.{own_coding};
ghost use Rattle.verdicts.specs.Certified.{ProveKept};
ghost use Rattle.verdict_types.specs.Forms.{IsSetInForm, IsVerdictInForm};
ghost use Rattle.cert_values.specs.Certs.{cert_of};
ghost use Rattle.cert_defs.specs.Accepted.{HoldEach, AreRightVerdicts, justified_numbers};
ghost use Rattle.cert_check.specs.Checking.{IsAnswerFor};
ghost use Rattle.cert_text.specs.Certs.{IsSpellable, Spells};
ghost use Rattle.cert_text.specs.Found.{HasOnlySmallHints};
ghost use Rattle.cert_call.specs.Texts.{IsAcceptedText, IsTextCause};

use cert_check::check;
use cert_text::read_cert;
use cert_values::CertFault;
use net_model::{Claim, Design};
use sdcv_base::Seq;
use std::alloc::Global;
use verdicts::{InvSet, Limits, Verdict};

/// The numbers of the claims that the text lists, ascending, where it spells a certificate that is accepted. Each of them then holds
/// in every run from reset.
pub fn check_cert(
    alloc: Global,
    design: &Design,
    claims: &[Claim],
    bytes: &[u8],
) -> Result<Seq<u64>, CertFault>
    requires sound { IsSound design.now }
    requires fit { All (Fits design.now) claims.now }
    ensures accepted { IfOk result (IsAcceptedText design.now claims.now bytes.now) }
    ensures holds { IfOk result (HoldEach design.now claims.now) }
    ensures cause { IfErr result (IsTextCause design.now claims.now bytes.now) }
    ensures only { (numbers : List ℕ) → IsAcceptedText design.now claims.now bytes.now numbers → IsAnswerFor numbers result }
{
    let cert = read_cert(alloc, bytes)?;
    check(alloc, design, claims, &cert)
}

/// The text of what was found is accepted, with the numbers of the claims that are justified.
pub fn written_is_accepted(
    design: &Design,
    claims: &[Claim],
    inv: &InvSet,
    limits: Limits,
    verdicts: &[Verdict],
    bytes: &[u8],
)
    requires names { All (NamesRegs design.now) inv.now.kept }
    requires proved { ProveKept own_coding design.now inv.now.kept inv.now.depth inv.now.proofs }
    requires right { AreRightVerdicts design.now claims.now inv.now.kept limits verdicts.now }
    requires spells { Spells bytes.now (cert_of inv.now verdicts.now) }
    ensures { IsAcceptedText design.now claims.now bytes.now (justified_numbers verdicts.now) }
{}

/// What a search hands out can be written, and each text that spells it is accepted with the numbers of the claims that are justified.
///
/// What is asked of the kept clauses and of the verdicts is what the searches promise of them. No promise bounds the number of clauses of
/// a formula, so hints from 2^63 on are left to the writer, which answers want of memory for them.
pub fn found_is_writable(
    design: &Design,
    claims: &Seq<Claim>,
    inv: &InvSet,
    limits: Limits,
    verdicts: &Seq<Verdict>,
)
    requires names { All (NamesRegs design.now) inv.now.kept }
    requires proved { ProveKept own_coding design.now inv.now.kept inv.now.depth inv.now.proofs }
    requires set { IsSetInForm inv.now }
    requires right { AreRightVerdicts design.now claims.now inv.now.kept limits verdicts.now }
    requires in_form { All IsVerdictInForm verdicts.now }
    ensures spellable { HasOnlySmallHints (cert_of inv.now verdicts.now) → IsSpellable (cert_of inv.now verdicts.now) }
    ensures accepted { (bytes : List ℕ) → Spells bytes (cert_of inv.now verdicts.now)
        → IsAcceptedText design.now claims.now bytes (justified_numbers verdicts.now) }
{
    // There are as many as in a slice, so fewer than 2^63.
    let _verdicts = verdicts.as_slice();
}
