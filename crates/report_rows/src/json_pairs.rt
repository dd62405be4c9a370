//! The pairs of a report as JSON.
ghost use Rattle.std.specs.Prelude.{◌≡◌, IfOk};
ghost use Rattle.std.specs.Option.{option_map};
ghost use Rattle.serde_json.specs.View.{view};
ghost use Rattle.report_rows.specs.Words.{when};
ghost use Rattle.report_rows.specs.Members as spec;
ghost use Rattle.report_rows.specs.MemberParts.{seen_pair};

use crate::members::{count_in, text_in};
use crate::pair_lines::add_pair;
use crate::reports::{PairRow, Report, Word};
use crate::verdicts::verdict_in;
use sdcv_base::Name;
use serde_json::Value;
use std::alloc::{AllocError, Global};

/// The members of a pair.
#[derive(Clone, Copy)]
pub struct PairMembers<'v> {
    pub number: u64,
    pub command: u64,
    pub kind: &'v str,
    pub start: &'v str,
    pub end: &'v str,
    pub verdict: Word,
    pub why: &'v str,
}

#[tactic(auto, unfolding(crate::specs::Members::pair_in))]
fn pair_in<'v>(value: &'v Value) -> Option<PairMembers<'v>>
    ensures { option_map seen_pair result ≡ spec.pair_in (view value.entry.now) }
{
    let number = count_in(value, "number")?;
    let command = count_in(value, "command")?;
    let kind = text_in(value, "kind")?;
    let start = text_in(value, "start")?;
    let end = text_in(value, "end")?;
    let verdict = verdict_in(text_in(value, "verdict")?.as_bytes())?;
    let why = text_in(value, "why")?;
    Some(PairMembers {
        number,
        command,
        kind,
        start,
        end,
        verdict,
        why,
    })
}

fn row_of(alloc: Global, pair: &PairMembers<'_>) -> Result<PairRow, AllocError>
    ensures { IfOk result (λ row. row ≡ seen_pair pair.now) }
{
    Ok(PairRow {
        number: pair.number,
        command: pair.command,
        kind: Name::new(alloc, pair.kind.as_bytes())?,
        start: Name::new(alloc, pair.start.as_bytes())?,
        end: Name::new(alloc, pair.end.as_bytes())?,
        verdict: pair.verdict,
        why: Name::new(alloc, pair.why.as_bytes())?,
    })
}

/// Adds the row of a pair; answers whether the value is one.
pub(crate) fn add_pair_value(
    alloc: Global,
    found: &mut Report,
    value: &Value,
) -> Result<bool, AllocError>
    ensures { IfOk result (λ fits. when fits found.new ≡ spec.with_pair_data found.old (view value.now)) }
{
    let Some(pair) = pair_in(value) else {
        return Ok(false);
    };
    add_pair(found, row_of(alloc, &pair)?)
}
