//! Laws of certificates. Each is the contract of a call that does nothing, for callers that cite it.
ghost use Rattle.std.specs.Prelude.{◌≡◌, ◌≢◌, ◌≤◌, ℕ, List, All};
ghost use Rattle.net_model.specs.Netlist.{IsSound};
ghost use Rattle.net_model.specs.Fits.{Fits};
ghost use Rattle.net_model.specs.Fits.{NamesRegs};
ghost use Rattle.verdicts.specs.Logs.{own_coding};
ghost use Rattle.verdicts.specs.Certified.{ProveKept};
ghost use Rattle.cert_values.specs.Certs.{IsComplete, cert_of};
ghost use Rattle.cert_values.specs.declared.faults.CertFault.TheVariants.{Memory};
ghost use Rattle.cert_defs.specs.Accepted.{Accepts, HoldEach, AreRightVerdicts, justified_numbers};
ghost use Rattle.cert_defs.specs.Refused.{IsCause};

use cert_values::{Cert, CertFault};
use net_model::{Claim, Design};
use query_model::Coding;
use verdicts::{InvSet, Limits, Verdict};

/// Each listed claim of an accepted certificate holds in every run from reset, where hazards count and where they don't.
///
/// It asks nothing of how the certificate was made.
pub fn accepted_hold(
    coding: Coding,
    design: &Design,
    claims: &[Claim],
    cert: &Cert,
    numbers: &[u64],
)
    requires sound { IsSound design.now }
    requires fit { All (Fits design.now) claims.now }
    requires accepted { Accepts coding design.now claims.now cert.now numbers.now }
    ensures { HoldEach design.now claims.now numbers.now }
{}

/// A certificate that there is a cause to refuse, other than want of memory, is accepted with no list.
pub fn refused(coding: Coding, design: &Design, claims: &[Claim], cert: &Cert, fault: &CertFault)
    requires sound { IsSound design.now }
    requires cause { IsCause coding design.now claims.now cert.now fault.now }
    requires told { fault.now ≢ Memory }
    ensures { (numbers : List ℕ) → ¬ Accepts coding design.now claims.now cert.now numbers }
{}

/// A certificate is accepted with at most one list.
pub fn one_list(
    coding: Coding,
    design: &Design,
    claims: &[Claim],
    cert: &Cert,
    one: &[u64],
    other: &[u64],
)
    requires one { Accepts coding design.now claims.now cert.now one.now }
    requires other { Accepts coding design.now claims.now cert.now other.now }
    ensures { one.now ≡ other.now }
{}

/// The certificate of kept clauses with derivations, and of right verdicts, is accepted with the numbers of the claims that are
/// justified.
pub fn justified_are_accepted(
    design: &Design,
    claims: &[Claim],
    inv: &InvSet,
    limits: Limits,
    verdicts: &[Verdict],
)
    requires names { All (NamesRegs design.now) inv.now.kept }
    requires proved { ProveKept own_coding design.now inv.now.kept inv.now.depth inv.now.proofs }
    requires right { AreRightVerdicts design.now claims.now inv.now.kept limits verdicts.now }
    requires shallow { inv.now.depth ≤ 8 }
    requires few { limits.depth ≤ 64 }
    ensures complete { IsComplete (cert_of inv.now verdicts.now) }
    ensures accepted { Accepts own_coding design.now claims.now (cert_of inv.now verdicts.now) (justified_numbers verdicts.now) }
{}
