//! A certificate, written.
ghost use Rattle.std.specs.Prelude.{◌≡◌, ◌++◌, ◌∷◌, [], ◌<◌, ◌^◌, IfOk, OnOk, All};
ghost use Rattle.std.specs.List.{AllByRecursion};
ghost use Rattle.net_model.specs.declared.queries.Phase.TheVariants.{Base, Step};
ghost use Rattle.verdict_types.specs.Forms.{IsInForm, IsKeptClause, IsProofInForm, IsVerdictInForm, IsSetInForm};
ghost use Rattle.cert_values.specs.Certs.{justified_from, cert_of};
ghost use Rattle.cert_lines.specs.Kinds.{text_of, kept_words};
ghost use Rattle.cert_lines.specs.Texts.{many_text};
ghost use Rattle.cert_lines.specs.Derivations.{derivation_text, IsWritable};
ghost use Rattle.cert_text.specs.Certs.{proof_text, pair_text, HasProof, IsPair, Spells};
ghost use Rattle.cert_text.specs.Found.{HasSmallHints, IsProofFound, IsProofWritable};

use cert_lines::{
    InvHead, Section, push_derivation, push_first, push_inv, push_kept, push_section,
};
use cert_values::version_for;
use net_model::{InvClause, Phase};
use proof_log::{DerivStep, Derivation};
use std::alloc::{AllocError, Global};
use verdict_types::{InvProof, InvSet, Proof, Verdict};

/// The greatest hint that is written.
const MOST: u64 = 9_223_372_036_854_775_807;

/// A greater hint is the number of a clause for which there is no memory.
fn check_hints(hints: &[u64]) -> Result<(), AllocError>
    ensures { OnOk result (All (λ h. h < 2 ^ 63) hints.now) }
{
    for hint in hints {
        if *hint > MOST {
            return Err(AllocError);
        }
    }
    Ok(())
}

fn check_steps(steps: &[DerivStep]) -> Result<(), AllocError>
    ensures { OnOk result (All HasSmallHints steps.now) }
{
    for step in steps {
        check_hints(step.hints.as_slice())?;
    }
    Ok(())
}

/// Appends a derivation that was found.
fn push_found(
    alloc: Global,
    out: &mut Vec<u8>,
    phase: Phase,
    derivation: &Derivation,
) -> Result<(), AllocError>
    requires { IsInForm derivation.now }
    ensures text { OnOk result (out.new.items ≡ out.old.items ++ derivation_text phase derivation.now) }
    ensures fits { OnOk result (IsWritable derivation.now) }
{
    check_steps(derivation.steps.as_slice())?;
    push_derivation(alloc, out, phase, derivation)?;
    Ok(())
}

/// Appends the derivations of base queries.
fn push_bases(alloc: Global, out: &mut Vec<u8>, base: &[Derivation]) -> Result<(), AllocError>
    requires { All IsInForm base.now }
    ensures text { OnOk result (out.new.items ≡ out.old.items ++ many_text (derivation_text Base) base.now) }
    ensures fits { OnOk result (All IsWritable base.now) }
{
    for derivation in base {
        push_found(alloc, out, Phase::Base, derivation)?;
    }
    Ok(())
}

/// Appends the derivations at a depth.
fn push_proof(
    alloc: Global,
    out: &mut Vec<u8>,
    base: &[Derivation],
    step: &Derivation,
) -> Result<(), AllocError>
    requires base { All IsInForm base.now }
    requires step { IsInForm step.now }
    ensures text { OnOk result (out.new.items ≡ out.old.items ++ (many_text (derivation_text Base) base.now ++ derivation_text Step step.now)) }
    ensures base { OnOk result (All IsWritable base.now) }
    ensures step { OnOk result (IsWritable step.now) }
{
    push_bases(alloc, out, base)?;
    push_found(alloc, out, Phase::Step, step)?;
    Ok(())
}

/// Appends the derivations of kept clauses.
fn push_proofs(alloc: Global, out: &mut Vec<u8>, proofs: &[InvProof]) -> Result<(), AllocError>
    requires { All IsProofFound proofs.now }
    ensures text { OnOk result (out.new.items ≡ out.old.items ++ many_text proof_text proofs.now) }
    ensures fits { OnOk result (All IsProofWritable proofs.now) }
{
    for proof in proofs {
        push_proof(alloc, out, proof.base.as_slice(), &proof.step)?;
    }
    Ok(())
}

/// Appends kept clauses.
fn push_clauses(alloc: Global, out: &mut Vec<u8>, kept: &[InvClause]) -> Result<(), AllocError>
    requires { All IsKeptClause kept.now }
    ensures { OnOk result (out.new.items ≡ out.old.items ++ many_text (text_of kept_words) kept.now) }
{
    for clause in kept {
        push_kept(alloc, out, clause)?;
    }
    Ok(())
}

/// Appends a pair.
fn push_pair(alloc: Global, out: &mut Vec<u8>, number: u64, proof: &Proof) -> Result<(), AllocError>
    requires { IsProofInForm proof.now }
    ensures text { OnOk result (out.new.items ≡ out.old.items ++ pair_text (record { number = number; proof = proof.now })) }
    ensures fits { OnOk result (HasProof proof.now) }
{
    match proof {
        Proof::Single => push_section(alloc, out, Section::Single(number)),
        Proof::Fixed => push_section(alloc, out, Section::Fixed(number)),
        Proof::Depth { depth, base, step } => {
            push_section(alloc, out, Section::Depth(number, *depth))?;
            push_proof(alloc, out, base.as_slice(), step)
        }
    }
}

/// Appends the pair of a claim that is justified, and else nothing.
fn push_verdict(
    alloc: Global,
    out: &mut Vec<u8>,
    number: u64,
    verdict: &Verdict,
) -> Result<(), AllocError>
    requires form { IsVerdictInForm verdict.now }
    requires small { number < 2 ^ 63 }
    ensures text { OnOk result (out.new.items ≡ out.old.items ++ many_text pair_text (justified_from number (verdict.now ∷ []))) }
    ensures fits { OnOk result (AllByRecursion IsPair (justified_from number (verdict.now ∷ []))) }
{
    match verdict {
        Verdict::Justified(proof) => push_pair(alloc, out, number, proof),
        Verdict::Refuted { .. } | Verdict::Undecided(_) => Ok(()),
    }
}

/// Appends the pairs of the claims that are justified.
fn push_pairs(alloc: Global, out: &mut Vec<u8>, verdicts: &[Verdict]) -> Result<(), AllocError>
    requires { All IsVerdictInForm verdicts.now }
    ensures text { OnOk result (out.new.items ≡ out.old.items ++ many_text pair_text (justified_from 1 verdicts.now)) }
    ensures fits { OnOk result (AllByRecursion IsPair (justified_from 1 verdicts.now)) }
{
    for place in 0..verdicts.len() {
        push_verdict(alloc, out, place as u64 + 1, &verdicts[place])?;
    }
    Ok(())
}

/// The text of the certificate of what was found.
pub fn write_cert(alloc: Global, verdicts: &[Verdict], inv: &InvSet) -> Result<Vec<u8>, AllocError>
    requires set { IsSetInForm inv.now }
    requires verdicts { All IsVerdictInForm verdicts.now }
    ensures { IfOk result (λ bytes. Spells bytes.items (cert_of inv.now verdicts.now)) }
{
    let mut out = Vec::new(alloc);
    push_first(alloc, &mut out, version_for(inv.kept.as_slice()))?;
    let head = InvHead {
        depth: inv.depth,
        count: inv.kept.len() as u64,
    };
    push_inv(alloc, &mut out, head)?;
    push_clauses(alloc, &mut out, inv.kept.as_slice())?;
    push_proofs(alloc, &mut out, inv.proofs.as_slice())?;
    push_pairs(alloc, &mut out, verdicts)?;
    push_section(alloc, &mut out, Section::End)?;
    Ok(out)
}
