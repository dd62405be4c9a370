//! A script is mended, and read back.
ghost use Rattle.std.specs.Prelude.{◌≡◌, IfOk, IfErr};
ghost use Rattle.linked_types.specs.Usable.{IsUsable};
ghost use Rattle.run_options.specs.Judging.{CanJudge};
ghost use Rattle.report_text.specs.Rows.{HasRows};
ghost use Rattle.mended_text.specs.Scenes.{seen_scene, seen_findings, AreProved};
ghost use Rattle.mended_text.specs.Mended as spec;

use crate::expected::expected_rows;
use crate::faults::MendFault;
use crate::reading::selects_exactly;
use crate::scenes::{Findings, Scene};
use linked_types::Names;
use mend_groups::{Part, Ports, parts_of};
use mend_lines::{Mending, bodies};
use sdc_pieces::rewritten;
use sdc_words::cleaned;
use sdcv_base::Seq;
use std::alloc::{AllocError, Global};

/// A mended text, and what became of the pairs of each exception.
#[derive(Drop)]
pub struct Mended {
    pub bytes: Vec<u8>,
    pub parts: Seq<Part>,
}

/// Mends the text of a script. `Unread` is told exactly where the mended text, read as a script of the same design, has other settings,
/// selects other claims than are kept, or is refused.
pub fn mend(
    alloc: Global,
    text: &[u8],
    scene: &Scene<'_>,
    findings: &Findings<'_>,
) -> Result<Mended, MendFault>
    requires usable { IsUsable scene.now.linked.now }
    requires judging { CanJudge scene.now.judging }
    requires rows { HasRows findings.now.selected.now findings.now.verdicts.now }
    requires proved { AreProved (seen_scene scene.now) (seen_findings findings.now) }
    ensures ok { IfOk result (spec.IsMended text.now (seen_scene scene.now) (seen_findings findings.now)) }
    ensures err { IfErr result (spec.IsMendCause text.now (seen_scene scene.now) (seen_findings findings.now)) }
{
    let parts = parts_by(alloc, scene, findings)?;
    let bytes = text_by(alloc, text, findings, parts.as_slice())?;
    let rows = expected_rows(alloc, parts.as_slice())?;
    if !selects_exactly(
        alloc,
        &bytes,
        scene,
        &findings.selected.claims,
        rows.as_slice(),
    )? {
        return Err(MendFault::Unread);
    }
    Ok(Mended { bytes, parts })
}

// What becomes of the pairs of each exception.
fn parts_by(
    alloc: Global,
    scene: &Scene<'_>,
    findings: &Findings<'_>,
) -> Result<Seq<Part>, AllocError>
    requires { HasRows findings.now.selected.now findings.now.verdicts.now }
    ensures { IfOk result (λ parts. parts ≡ spec.parts_by (seen_scene scene.now) (seen_findings findings.now)) }
{
    parts_of(
        alloc,
        ports_of(&scene.linked.names),
        findings.script,
        findings.hold,
        findings.selected,
        findings.verdicts,
    )
}

fn ports_of(names: &Names) -> Ports
    ensures { result ≡ spec.ports_of names.now }
{
    Ports {
        inputs: names.ins.len(),
        outputs: names.outs.len(),
    }
}

// The text with what stands in the place of each command.
fn text_by<'a>(
    alloc: Global,
    text: &[u8],
    findings: &Findings<'a>,
    parts: &'a [Part],
) -> Result<Vec<u8>, AllocError>
    requires { HasRows findings.now.selected.now findings.now.verdicts.now }
    ensures { IfOk result (λ bytes. bytes.items ≡ spec.text_by text.now (seen_findings findings.now) parts.now) }
{
    let clean = cleaned(alloc, text)?;
    let mending = Mending {
        script: findings.script,
        hold: findings.hold,
        selected: findings.selected,
        verdicts: findings.verdicts,
        depth: findings.depth,
        parts,
    };
    let bodies = bodies(alloc, &mending)?;
    rewritten(alloc, &clean, bodies.as_slice())
}
