//! How many pairs have which verdict.
ghost use Rattle.std.specs.Prelude.{◌≡◌, IfOk, string_bytes};
ghost use Rattle.report_text.specs.Words.{tally_of, total_text};

use std::alloc::{AllocError, Global};
use verdict_types::Verdict;

/// How many of some pairs are justified, refuted and undecided.
#[derive(Clone, Copy, PartialEq, Eq)]
pub struct Tally {
    pub pairs: usize,
    pub justified: usize,
    pub refuted: usize,
    pub undecided: usize,
}

/// Counts the verdicts.
#[tactic(auto, using(std::proofs::lemmas::List::Sums::count_by_more_no, std::proofs::lemmas::List::Sums::count_by_more_yes))]
pub fn tally_of(verdicts: &[Verdict]) -> Tally
    ensures { result ≡ tally_of verdicts.now }
{
    let mut justified = 0;
    let mut refuted = 0;
    let mut undecided = 0;
    for verdict in verdicts {
        match verdict {
            Verdict::Justified(_) => justified += 1,
            Verdict::Refuted { .. } => refuted += 1,
            Verdict::Undecided(_) => undecided += 1,
        }
    }
    Tally {
        pairs: verdicts.len(),
        justified,
        refuted,
        undecided,
    }
}

/// The text of the last line.
pub(crate) fn total_text(alloc: Global, verdicts: &[Verdict]) -> Result<String, AllocError>
    ensures { IfOk result (λ text. string_bytes text ≡ total_text verdicts.now) }
{
    let all = tally_of(verdicts);
    let pairs = all.pairs;
    let justified = all.justified;
    let refuted = all.refuted;
    let undecided = all.undecided;
    format!(in alloc; "total {pairs} justified {justified} refuted {refuted} undecided {undecided}")
}
