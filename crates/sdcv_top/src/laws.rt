//! What follows for those who use what a verification left behind. Each law is the contract of a call that does nothing.
ghost use Rattle.sdcv_top.specs.Laws.{CheckRepeats, TellsAsJudged};

use design_stages::Designed;
use run_options::RunOptions;

/// A check of the certificate that was saved, over the same texts and options, accepts exactly the pairs that are told to
/// be justified.
pub fn check_repeats(designed: &Designed, options: &RunOptions)
    ensures { CheckRepeats designed.now options.now }
{}

/// Where nothing is cut out of a design, what is told of its pairs is what is judged.
pub fn tells_as_judged(designed: &Designed, options: &RunOptions)
    ensures { TellsAsJudged designed.now options.now }
{}
