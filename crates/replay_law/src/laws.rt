//! What follows for those who use what a verification left behind. Each law is the contract of a call that does nothing.
ghost use Rattle.run_options.specs.declared.proving.Proving.{Proving};
ghost use Rattle.sdcv_words.specs.Commands.{Texts};
ghost use Rattle.replay_law.specs.Laws.{CheckRepeats, ReplayIsDue, ReportReplays};

use sdcv_words::Options;

/// A check of the certificate that a verification saved accepts exactly the pairs that are justified, where both runs read the same
/// three texts, whatever else the host tells, and have the same options.
pub fn check_repeats(options: &Options)
    ensures { (files : Texts) (p : Proving) → CheckRepeats files options.now p }
{}

/// A replay of a refuted pair from the report that a verification printed by lines, where both runs read the same three texts and
/// have the same options, tells that the pair is violated, and in which cycle: that of the offset which the report tells.
pub fn report_replays(options: &Options)
    ensures due { (files : Texts) (p : Proving) → ReplayIsDue files options.now p }
    ensures only { (files : Texts) (p : Proving) → ReportReplays files options.now p }
{}
