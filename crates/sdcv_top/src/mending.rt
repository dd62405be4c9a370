//! A script is judged, and written again.
ghost use Rattle.std.specs.Prelude.{◌≡◌, ◌∷◌, [], Some};
ghost use Rattle.std.specs.Option.{option_map};
ghost use Rattle.run_options.specs.Judging.{CanJudge};
ghost use Rattle.sdcv_words.specs.Commands.{seen_texts, seen_mending, Mend};
ghost use Rattle.sdcv_words.specs.Ranges.{AreOptionsInRange, IsProvingInRange};
ghost use Rattle.design_stages.specs.Designs.{CanBeJudged};
ghost use Rattle.sdcv_top.specs.Headline.{AreInRange};
ghost use Rattle.sdcv_top.specs.Mending.{MendedAssisted, MendedWith, MendsPairs};
ghost use Rattle.sdcv_top.specs.Reads.{assist_reads, reads_of, text_of};
ghost use Rattle.sdcv_top.specs.Plans.{StopCounts, Plans};

use crate::assisting::clauses;
use crate::mendables::{Mendable, mendable_of};
use crate::mended::{Wanted, mended};
use crate::plans::{Plan, Stop};
use crate::readers::{cells, netlist, text};
use crate::reads::LONGEST;
use crate::stages::run_options;
use fault_lines::Origin;
use judgements::Progress;
use run_options::RunOptions;
use sdcv_base::Host;
use sdcv_words::{Mending, Options, Texts};
use std::alloc::Global;

/// The texts are read, the pairs of the constraints are judged, and the mended constraints are to be saved and told.
pub fn mended_out<'a, H: Host, P: Progress>(
    alloc: Global,
    host: &mut H,
    files: Texts<'a>,
    options: Options,
    mending: Mending<'a>,
    progress: &mut P,
) -> Result<Plan<'a>, Stop>
    requires options { AreOptionsInRange options }
    requires mending { IsProvingInRange mending.proving }
    ensures planned { Plans (MendsPairs (seen_texts files.entry) options (seen_mending mending.entry))
        (reads_of (Some (Mend (seen_texts files.entry) options (seen_mending mending.entry))))
        (H.files host.old) (H.asked host.old) (H.asked host.new) result }
    ensures count { StopCounts (H.faults host.old) (H.faults host.new) result }
    ensures files { H.files host.new ≡ H.files host.old }
    ensures printed { H.printed host.new ≡ H.printed host.old }
    ensures saved { H.saved host.new ≡ H.saved host.old }
{
    let (judging, reset_len) = (options.judging, options.reset.len);
    let source = netlist(alloc, host, files.netlist, &options.forms.netlist)?;
    let library = cells(alloc, host, files.cells)?;
    let text = text(alloc, host, files.constraints, LONGEST, Origin::Sdc)?;
    let mendable = mendable_of(alloc, source, library, options, text)?;
    let wanted = Wanted {
        out: mending.out,
        options: run_options(judging, reset_len, mendable.designed.free, mending.proving),
        assist: mending.assist,
    };
    let plan = mended_with(alloc, host, &mendable, wanted, progress)?;
    Ok(plan)
}

// The constraints are mended, with the clauses of a file where one is named.
fn mended_with<'a, H: Host, P: Progress>(
    alloc: Global,
    host: &mut H,
    mendable: &Mendable,
    wanted: Wanted<'a>,
    progress: &mut P,
) -> Result<Plan<'a>, Stop>
    requires judged { CanBeJudged mendable.now.designed }
    requires judging { CanJudge mendable.now.judging }
    requires options { AreInRange wanted.options }
    ensures planned { Plans (MendedWith wanted.entry.out.now wanted.entry.options (option_map (λ t. t.now) wanted.entry.assist) mendable.now)
        (assist_reads (option_map (λ t. t.now) wanted.entry.assist)) (H.files host.old) (H.asked host.old) (H.asked host.new) result }
    ensures count { StopCounts (H.faults host.old) (H.faults host.new) result }
    ensures files { H.files host.new ≡ H.files host.old }
    ensures printed { H.printed host.new ≡ H.printed host.old }
    ensures saved { H.saved host.new ≡ H.saved host.old }
{
    match wanted.assist {
        Some(file) => assisted(alloc, host, mendable, file, wanted, progress),
        None => Ok(mended(alloc, mendable, &wanted, &[], progress)?),
    }
}

// The same with the clauses of that file. What is told says how many there are.
fn assisted<'a, H: Host, P: Progress>(
    alloc: Global,
    host: &mut H,
    mendable: &Mendable,
    file: &str,
    wanted: Wanted<'a>,
    progress: &mut P,
) -> Result<Plan<'a>, Stop>
    requires judged { CanBeJudged mendable.now.designed }
    requires judging { CanJudge mendable.now.judging }
    requires options { AreInRange wanted.options }
    ensures planned { Plans (MendedAssisted wanted.entry.out.now wanted.entry.options mendable.now)
        (text_of file.now ∷ []) (H.files host.old) (H.asked host.old) (H.asked host.new) result }
    ensures count { StopCounts (H.faults host.old) (H.faults host.new) result }
    ensures files { H.files host.new ≡ H.files host.old }
    ensures printed { H.printed host.new ≡ H.printed host.old }
    ensures saved { H.saved host.new ≡ H.saved host.old }
{
    let extra = clauses(alloc, host, &mendable.designed.linked, file)?;
    let options = RunOptions {
        assist: Some(extra.len() as u64),
        ..wanted.options
    };
    let wanted = Wanted { options, ..wanted };
    let plan = mended(alloc, mendable, &wanted, extra.as_slice(), progress)?;
    Ok(plan)
}
