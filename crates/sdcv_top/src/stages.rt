//! The run on one screen: its stages in their order, each of which ends with its own value.
ghost use Rattle.std.specs.Prelude.{◌≡◌, All, Some};
ghost use Rattle.std.specs.Option.{option_map};
ghost use Rattle.sdcv_words.specs.Commands.{seen_command, seen_texts, seen_job, Over};
ghost use Rattle.sdcv_words.specs.Ranges.{AreOptionsInRange, IsInRange, IsJobInRange};
ghost use Rattle.design_stages.specs.Designs.{CanBeJudged};
ghost use Rattle.sdcv_top.specs.Due.{IsDueFor, Worked};
ghost use Rattle.sdcv_top.specs.Headline.{AreInRange};
ghost use Rattle.sdcv_top.specs.Jobs.{IsDone, Verified, run_options};
ghost use Rattle.sdcv_top.specs.Reads.{assist_reads, reads_of, job_reads};
ghost use Rattle.sdcv_top.specs.Plans.{StopCounts, Plans};

use crate::assisting::assisted;
use crate::checking::checked;
use crate::demos::demonstrated;
use crate::finding::found_out;
use crate::mending::mended_out;
use crate::plans::{Plan, Stop};
use crate::readers::texts;
use crate::replaying::replayed;
use crate::verifying::{Verifying, verified};
use crate::watching::watched;
use design_stages::{Designed, designed};
use judgements::Progress;
use run_options::{Judging, Proving, RunOptions};
use sdcv_base::Host;
use sdcv_words::{Command, Job, Options, Texts};
use std::alloc::Global;

/// What the command is due to save and print, or why it stops before it does anything of its own.
pub fn plan<'a, H: Host, P: Progress>(
    alloc: Global,
    host: &mut H,
    command: Command<'a>,
    progress: &mut P,
) -> Result<Plan<'a>, Stop>
    requires { IsInRange (seen_command command) }
    ensures planned { Plans (IsDueFor (Some (seen_command command.entry))) (reads_of (Some (seen_command command.entry))) (H.files host.old)
        (H.asked host.old) (H.asked host.new) result }
    ensures count { StopCounts (H.faults host.old) (H.faults host.new) result }
    ensures files { H.files host.new ≡ H.files host.old }
    ensures printed { H.printed host.new ≡ H.printed host.old }
    ensures saved { H.saved host.new ≡ H.saved host.old }
{
    match command {
        Command::Over {
            texts,
            options,
            job,
        } => worked(alloc, host, texts, options, job, progress),
        Command::Detect {
            texts,
            options,
            finding,
        } => found_out(alloc, host, texts, options, finding, progress),
        Command::Mend {
            texts,
            options,
            mending,
        } => mended_out(alloc, host, texts, options, mending, progress),
        Command::Demo { seed, size } => Ok(demonstrated(alloc, seed, size, progress)?),
    }
}

// A job over three texts: they are read, the netlist is linked, pairs are selected, and the job is done on them.
fn worked<'a, H: Host, P: Progress>(
    alloc: Global,
    host: &mut H,
    files: Texts<'a>,
    options: Options,
    job: Job<'a>,
    progress: &mut P,
) -> Result<Plan<'a>, Stop>
    requires options { AreOptionsInRange options }
    requires job { IsJobInRange options.judging.hazard (seen_job job) }
    ensures planned { Plans (Worked (seen_texts files.entry) options (seen_job job.entry))
        (reads_of (Some (Over (seen_texts files.entry) options (seen_job job.entry))))
        (H.files host.old) (H.asked host.old) (H.asked host.new) result }
    ensures count { StopCounts (H.faults host.old) (H.faults host.new) result }
    ensures files { H.files host.new ≡ H.files host.old }
    ensures printed { H.printed host.new ≡ H.printed host.old }
    ensures saved { H.saved host.new ≡ H.saved host.old }
{
    let Options {
        judging,
        forms,
        reset,
    } = options;
    let texts = texts(alloc, host, files, forms)?;
    let designed = designed(alloc, &texts, reset, judging)?;
    let done = done(alloc, host, &designed, judging, job, progress)?;
    Ok(done)
}

// The job is done on the selected pairs. Runs are held in reset for as long as the design says.
fn done<'a, H: Host, P: Progress>(
    alloc: Global,
    host: &mut H,
    designed: &Designed,
    judging: Judging,
    job: Job<'a>,
    progress: &mut P,
) -> Result<Plan<'a>, Stop>
    requires judged { CanBeJudged designed.now }
    requires hazard { All (λ claim. claim.hazard ≡ judging.hazard) designed.now.selected.claims }
    requires job { IsJobInRange judging.hazard (seen_job job) }
    ensures planned { Plans (IsDone judging designed.now.linked.design.reset_len (seen_job job.entry) designed.now)
        (job_reads (seen_job job.entry)) (H.files host.old) (H.asked host.old) (H.asked host.new) result }
    ensures count { StopCounts (H.faults host.old) (H.faults host.new) result }
    ensures files { H.files host.new ≡ H.files host.old }
    ensures printed { H.printed host.new ≡ H.printed host.old }
    ensures saved { H.saved host.new ≡ H.saved host.old }
{
    match job {
        Job::Verify {
            out,
            json,
            proving,
            assist,
        } => {
            let reset_len = designed.linked.design.reset_len;
            let verifying = Verifying {
                options: run_options(judging, reset_len, designed.free, proving),
                out: Some(out),
                json,
            };
            verify(alloc, host, designed, verifying, assist, progress)
        }
        Job::Check { cert } => checked(alloc, host, designed, cert),
        Job::Replay { report, pair } => replayed(alloc, host, designed, report, pair),
        Job::Aiger { out, pair, symbols } => Ok(watched(alloc, designed, out, pair, symbols)?),
    }
}

/// What a report tells of how the run was made.
pub fn run_options(
    judging: Judging,
    reset_len: usize,
    free: Option<u64>,
    proving: Proving,
) -> RunOptions
    ensures { result ≡ run_options judging reset_len free proving }
{
    RunOptions {
        hazard: judging.hazard,
        reset_len,
        depth: proving.depth,
        budget: proving.budget,
        inv_depth: proving.inv_depth,
        lag: judging.lag,
        hold: judging.hold,
        assist: None,
        free,
        assumed: None,
        strict: judging.strict,
    }
}

// All selected pairs are judged, with the clauses of a file where one is named.
fn verify<'a, H: Host, P: Progress>(
    alloc: Global,
    host: &mut H,
    designed: &Designed,
    verifying: Verifying<'a>,
    assist: Option<&'a str>,
    progress: &mut P,
) -> Result<Plan<'a>, Stop>
    requires judged { CanBeJudged designed.now }
    requires options { AreInRange verifying.options }
    ensures planned { Plans (Verified (option_map (λ t. t.now) verifying.entry.out) verifying.entry.json verifying.entry.options
        (option_map (λ t. t.now) assist.entry) designed.now)
        (assist_reads (option_map (λ t. t.now) assist.entry)) (H.files host.old) (H.asked host.old) (H.asked host.new) result }
    ensures count { StopCounts (H.faults host.old) (H.faults host.new) result }
    ensures files { H.files host.new ≡ H.files host.old }
    ensures printed { H.printed host.new ≡ H.printed host.old }
    ensures saved { H.saved host.new ≡ H.saved host.old }
{
    match assist {
        Some(file) => assisted(alloc, host, designed, file, verifying, progress),
        None => Ok(verified(alloc, designed, &verifying, &[], progress)?),
    }
}
