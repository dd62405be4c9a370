//! The lines of a certificate that is checked.
ghost use Rattle.std.specs.Prelude.{◌≡◌, IfOk, Some, string_bytes};
ghost use Rattle.answer_lines.specs.Certs.{accepted_line, accepted_lines, check_text, pair_line, rejected_line, rejected_text};
ghost use Rattle.answer_lines.specs.Texts.{bytes_of_lines};

use cert_values::CertFault;
use rup_check::CheckFault;
use std::alloc::{AllocError, Global};

fn accepted_line(alloc: Global, accepted: usize, pairs: usize) -> Result<Vec<u8>, AllocError>
    ensures { IfOk result (λ line. line.items ≡ accepted_line accepted pairs) }
{
    Ok(format!(in alloc; "accepted {accepted} of {pairs}\n")?.into_bytes())
}

fn pair_line(alloc: Global, number: u64) -> Result<Vec<u8>, AllocError>
    ensures { IfOk result (λ line. line.items ≡ pair_line number) }
{
    Ok(format!(in alloc; "pair {number}\n")?.into_bytes())
}

/// The lines of a certificate that is accepted with the pairs of these numbers, of so many pairs that are selected.
pub fn accepted_lines(
    alloc: Global,
    numbers: &[u64],
    pairs: usize,
) -> Result<Vec<Vec<u8>>, AllocError>
    ensures { IfOk result (λ lines. bytes_of_lines lines.items ≡ accepted_lines numbers.now pairs) }
{
    let mut lines = Vec::new(alloc);
    lines.push(accepted_line(alloc, numbers.len(), pairs)?)?;
    for number in numbers {
        lines.push(pair_line(alloc, *number)?)?;
    }
    Ok(lines)
}

fn check_text(alloc: Global, fault: CheckFault) -> Result<String, AllocError>
    ensures { IfOk result (λ text. check_text fault ≡ Some (string_bytes text)) }
{
    match fault {
        CheckFault::HintMissing(step) => format!(in alloc; "HintMissing {step}"),
        CheckFault::HintNotUnit(step, place) => format!(in alloc; "HintNotUnit {step} {place}"),
        CheckFault::NoConflict(step) => format!(in alloc; "NoConflict {step}"),
        CheckFault::NotEmpty => String::from_str(alloc, "NotEmpty"),
        CheckFault::Memory => Err(AllocError),
    }
}

fn rejected_text(alloc: Global, fault: CertFault) -> Result<String, AllocError>
    ensures { IfOk result (λ text. rejected_text fault ≡ Some (string_bytes text)) }
{
    match fault {
        CertFault::Form(offset) => format!(in alloc; "1 Form {offset}"),
        CertFault::Version(number) => format!(in alloc; "2 Version {number}"),
        CertFault::UnknownRegister(place) => format!(in alloc; "3 UnknownRegister {place}"),
        CertFault::UnknownPair(number) => format!(in alloc; "4 UnknownPair {number}"),
        CertFault::TwicePair(number) => format!(in alloc; "5 TwicePair {number}"),
        CertFault::NotTrivial(number) => format!(in alloc; "6 NotTrivial {number}"),
        CertFault::Invariant(place, why) => {
            let why = check_text(alloc, why)?;
            format!(in alloc; "7 Invariant {place} {why}")
        }
        CertFault::Pair(number, why) => {
            let why = check_text(alloc, why)?;
            format!(in alloc; "8 Pair {number} {why}")
        }
        CertFault::Memory => Err(AllocError),
    }
}

/// The line of a certificate that is rejected.
pub fn rejected_line(alloc: Global, fault: &CertFault) -> Result<Vec<u8>, AllocError>
    ensures { IfOk result (λ line. rejected_line fault.now ≡ Some line.items) }
{
    let why = rejected_text(alloc, *fault)?;
    Ok(format!(in alloc; "rejected {why}\n")?.into_bytes())
}
