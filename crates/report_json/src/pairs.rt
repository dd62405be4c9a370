//! The selected pairs as values.
ghost use Rattle.std.specs.Prelude.{◌≡◌, codes, IfOk, OnOk};
ghost use Rattle.serde_json.specs.Data.{string};
ghost use Rattle.serde_json.specs.Data.{put as with_member};
ghost use Rattle.serde_json.specs.View.{view};
ghost use Rattle.report_text.specs.Words.{claim_text, why_text};
ghost use Rattle.report_text.specs.Rows.{HasRows};
ghost use Rattle.report_json.specs.Objects.{made};
ghost use Rattle.report_json.specs.Reports.{evidence_data, pair_data, pairs_data};

use crate::objects::{Object, array_of};
use crate::stimuli::evidence_value;
use net_model::Claim;
use report_text::{PairRow, claim_text, row_at, verdict_word, why_text};
use selected_types::Selected;
use serde_json::Value;
use std::alloc::{AllocError, Global};
use verdict_types::Verdict;

fn put_kind(alloc: Global, object: &mut Object, claim: &Claim) -> Result<(), AllocError>
    ensures { OnOk result (made object.new ≡ with_member (codes "kind") (string (claim_text claim.now)) (made object.old)) }
{
    object.put_text(alloc, "kind", &claim_text(alloc, claim)?)
}

fn put_evidence(alloc: Global, object: &mut Object, verdict: &Verdict) -> Result<(), AllocError>
    ensures { OnOk result (made object.new ≡ with_member (codes "stimulus") (evidence_data verdict.now) (made object.old)) }
{
    object.put_value(alloc, "stimulus", evidence_value(alloc, verdict)?)
}

fn put_why(
    alloc: Global,
    object: &mut Object,
    limit: usize,
    verdict: &Verdict,
) -> Result<(), AllocError>
    ensures { OnOk result (made object.new ≡ with_member (codes "why") (string (why_text limit verdict.now)) (made object.old)) }
{
    object.put_text(alloc, "why", &why_text(alloc, limit, verdict)?)
}

fn pair_value(alloc: Global, limit: usize, row: &PairRow<'_>) -> Result<Value, AllocError>
    ensures { IfOk result (λ v. view v ≡ pair_data limit row.now.number row.now.pair.now row.now.claim.now row.now.verdict.now) }
{
    let mut object = Object::new(alloc);
    object.put_count(alloc, "command", row.pair.command)?;
    object.put_name(alloc, "end", &row.pair.end)?;
    put_kind(alloc, &mut object, row.claim)?;
    object.put_count(alloc, "number", row.number)?;
    object.put_name(alloc, "start", &row.pair.start)?;
    put_evidence(alloc, &mut object, row.verdict)?;
    object.put_text(alloc, "verdict", verdict_word(row.verdict))?;
    put_why(alloc, &mut object, limit, row.verdict)?;
    Ok(object.into_value())
}

/// All pairs, in order, in a run whose greatest depth is `limit`.
pub(crate) fn pairs_value(
    alloc: Global,
    limit: usize,
    selected: &Selected,
    verdicts: &[Verdict],
) -> Result<Value, AllocError>
    requires { HasRows selected.now verdicts.now }
    ensures { IfOk result (λ v. view v ≡ pairs_data limit selected.now verdicts.now) }
{
    let mut list = Vec::new(alloc);
    for k in 0..verdicts.len() {
        let value = pair_value(alloc, limit, &row_at(selected, verdicts, k))?;
        list.push(value)?;
    }
    Ok(array_of(list))
}
