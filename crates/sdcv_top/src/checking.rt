//! The check of a certificate.
ghost use Rattle.std.specs.Prelude.{◌≡◌, [], ◌∷◌, IfOk};
ghost use Rattle.design_stages.specs.Designs.{CanBeJudged};
ghost use Rattle.sdcv_top.specs.Jobs.{Checked, IsChecked};
ghost use Rattle.sdcv_top.specs.Reads.{whole_of};
ghost use Rattle.sdcv_top.specs.Plans.{StopCounts, Plans, outcome_of};

use crate::plans::{Plan, Stop};
use crate::readers::text;
use answer_lines::{accepted_lines, rejected_line};
use cert_call::check_cert;
use design_stages::Designed;
use fault_lines::Origin;
use run_ends::Ending;
use sdcv_base::Host;
use std::alloc::{AllocError, Global};

/// Reads a certificate and checks it.
pub fn checked<'a, H: Host>(
    alloc: Global,
    host: &mut H,
    designed: &Designed,
    cert: &str,
) -> Result<Plan<'a>, Stop>
    requires { CanBeJudged designed.now }
    ensures planned { Plans (Checked designed.now) (whole_of cert.now ∷ []) (H.files host.old) (H.asked host.old) (H.asked host.new) result }
    ensures count { StopCounts (H.faults host.old) (H.faults host.new) result }
    ensures files { H.files host.new ≡ H.files host.old }
    ensures printed { H.printed host.new ≡ H.printed host.old }
    ensures saved { H.saved host.new ≡ H.saved host.old }
{
    let bytes = text(alloc, host, cert, usize::MAX, Origin::Cert)?;
    let plan = answer(alloc, designed, &bytes)?;
    Ok(plan)
}

// Which pairs are accepted, or why the certificate is rejected.
fn answer<'a>(alloc: Global, designed: &Designed, bytes: &[u8]) -> Result<Plan<'a>, AllocError>
    requires { CanBeJudged designed.now }
    ensures { IfOk result (λ plan. IsChecked designed.now.linked.design designed.now.selected.claims bytes.now (outcome_of plan)) }
{
    let claims = designed.selected.claims.as_slice();
    match check_cert(alloc, &designed.linked.design, claims, bytes) {
        Ok(numbers) => {
            let lines = accepted_lines(alloc, numbers.as_slice(), claims.len())?;
            Ok(Plan::printing(Ending::Done, lines))
        }
        Err(fault) => {
            let line = rejected_line(alloc, &fault)?;
            Plan::printing_one(alloc, Ending::Rejected, line)
        }
    }
}
