//! What a run answers.
ghost use Rattle.std.specs.Prelude.{◌≡◌, None};

use judgements::Judged;
use mcp_detect::Detected;
use run_ends::Status;
use sdcv_base::Name;

/// How a run ended, the verdicts that it reported, in the order of the pairs, and the multicycle pairs that it found. A run that
/// refuses a text, checks a certificate or replays a stimulus has neither. Where a text is refused or a certificate rejected, it
/// has the line that says so, without its newline.
#[derive(Drop)]
pub struct Ran {
    pub status: Status,
    pub judged: Option<Judged>,
    pub detected: Option<Detected>,
    pub refused: Option<Name>,
}

impl Ran {
    /// A run that stopped before it printed anything.
    pub fn stopped(status: Status) -> Ran
        ensures { result ≡ record { status = status; judged = None; detected = None; refused = None } }
    {
        Ran {
            status,
            judged: None,
            detected: None,
            refused: None,
        }
    }
}
