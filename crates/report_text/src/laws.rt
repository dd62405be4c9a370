//! What a report says of a refuted pair is found in it again.
ghost use Rattle.witness_replay.specs.Blocks.{HasFirstBlock, IsWritten};
ghost use Rattle.report_text.specs.Reports.{EachStimulus, ReadsBack, report_bytes};
ghost use Rattle.report_text.specs.Rows.{HasRows};

use run_options::RunOptions;
use selected_types::{Notices, Selected};
use verdict_types::Verdict;

/// The stimulus of each refuted pair is the first block of the pair's number in the report, so a reader of stimuli gives it
/// back.
pub fn report_reads_back(
    options: &RunOptions,
    notices: &Notices,
    selected: &Selected,
    verdicts: &[Verdict],
)
    requires { HasRows selected.now verdicts.now }
    ensures written { EachStimulus (λ number s. IsWritten number (report_bytes options.now notices.now selected.now verdicts.now) s) verdicts.now }
    ensures first { EachStimulus (λ number s. HasFirstBlock number (report_bytes options.now notices.now selected.now verdicts.now) s) verdicts.now }
    ensures back { EachStimulus (λ number s. ReadsBack number (report_bytes options.now notices.now selected.now verdicts.now) s) verdicts.now }
{}
