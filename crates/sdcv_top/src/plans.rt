//! What a run will save and print, as far as its texts decide, and why there is nothing to print.
ghost use Rattle.std.specs.Prelude.{◌≡◌, IfOk};
ghost use Rattle.sdcv_top.specs.declared.plans.Stop.TheVariants.{Memory};
ghost use Rattle.judgements.specs.Reports.{joined};
ghost use Rattle.sdcv_top.specs.Outcomes.{prints};
ghost use Rattle.sdcv_top.specs.Plans.{stop_of, outcome_of};

use design_stages::Refusal;
use judgements::Judged;
use mcp_detect::Detected;
use run_ends::Ending;
use std::alloc::{AllocError, Global};

/// The bytes of a file, and the name under which they are saved.
#[derive(Drop)]
pub struct SavedFile<'a> {
    pub name: &'a str,
    pub bytes: Vec<u8>,
}

/// How the run will end, the file that it saves first, the lines that it prints then, each with its newline, and the verdicts or
/// the found pairs that it hands out.
#[derive(Drop)]
pub struct Plan<'a> {
    pub ending: Ending,
    pub saved: Option<SavedFile<'a>>,
    pub lines: Vec<Vec<u8>>,
    pub judged: Option<Judged>,
    pub detected: Option<Detected>,
}

impl<'a> Plan<'a> {
    /// A run that prints these lines, and does nothing else.
    pub fn printing(ending: Ending, lines: Vec<Vec<u8>>) -> Plan<'a>
        ensures { outcome_of result ≡ prints ending (joined lines.items) }
    {
        Plan {
            ending,
            saved: None,
            lines,
            judged: None,
            detected: None,
        }
    }

    /// The same of one line.
    pub fn printing_one(
        alloc: Global,
        ending: Ending,
        line: Vec<u8>,
    ) -> Result<Plan<'a>, AllocError>
        ensures { IfOk result (λ plan. outcome_of plan ≡ prints ending line.items) }
    {
        let mut lines = Vec::new(alloc);
        lines.push(line)?;
        Ok(Plan::printing(ending, lines))
    }
}

/// Why a stage found nothing.
#[derive(Drop)]
pub enum Stop {
    /// A text or a design is refused. This line says why, with its newline.
    Refused(Vec<u8>),
    HostFault,
    Memory,
}

impl From<AllocError> for Stop {
    ghost from_gives = { λ _ e. e ≡ Memory };

    fn from(_: AllocError) -> Self {
        Stop::Memory
    }
}

impl From<Refusal> for Stop {
    ghost from_gives = { λ r e. e ≡ stop_of r };

    fn from(refusal: Refusal) -> Self {
        match refusal {
            Refusal::Line(line) => Stop::Refused(line),
            Refusal::Memory => Stop::Memory,
        }
    }
}
