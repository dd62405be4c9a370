//! The stimulus of a verdict as a value.
ghost use Rattle.std.specs.Prelude.{◌≡◌, codes, IfOk, OnOk};
ghost use Rattle.serde_json.specs.Data.{string};
ghost use Rattle.serde_json.specs.Data.{put as with_member};
ghost use Rattle.serde_json.specs.View.{view};
ghost use Rattle.witness_replay.specs.StimulusTexts.{digits_of};
ghost use Rattle.report_json.specs.Objects.{made};
ghost use Rattle.report_json.specs.Reports.{inputs_data, stimulus_data, evidence_data};

use crate::objects::{Object, array_of};
use net_model::Stimulus;
use report_text::bits_text;
use sdcv_base::Seq;
use serde_json::Value;
use std::alloc::{AllocError, Global};
use verdict_types::{Cause, Verdict};

fn inputs_value(alloc: Global, inputs: &Seq<Seq<bool>>) -> Result<Value, AllocError>
    ensures { IfOk result (λ v. view v ≡ inputs_data inputs.now) }
{
    let mut list = Vec::new(alloc);
    for bits in inputs.as_slice() {
        let text = bits_text(alloc, bits)?;
        list.push(Value::String(text))?;
    }
    Ok(array_of(list))
}

fn put_inputs(alloc: Global, object: &mut Object, inputs: &Seq<Seq<bool>>) -> Result<(), AllocError>
    ensures { OnOk result (made object.new ≡ with_member (codes "inputs") (inputs_data inputs.now) (made object.old)) }
{
    object.put_value(alloc, "inputs", inputs_value(alloc, inputs)?)
}

fn put_state(alloc: Global, object: &mut Object, state: &Seq<bool>) -> Result<(), AllocError>
    ensures { OnOk result (made object.new ≡ with_member (codes "state") (string (digits_of state.now)) (made object.old)) }
{
    object.put_text(alloc, "state", &bits_text(alloc, state)?)
}

fn stimulus_value(alloc: Global, stimulus: &Stimulus) -> Result<Value, AllocError>
    ensures { IfOk result (λ v. view v ≡ stimulus_data stimulus.now) }
{
    let mut object = Object::new(alloc);
    put_inputs(alloc, &mut object, &stimulus.inputs)?;
    put_state(alloc, &mut object, &stimulus.state)?;
    Ok(object.into_value())
}

/// The stimulus by which a pair is refuted, or may be where its free inputs give such bits, or null.
pub(crate) fn evidence_value(alloc: Global, verdict: &Verdict) -> Result<Value, AllocError>
    ensures { IfOk result (λ v. view v ≡ evidence_data verdict.now) }
{
    match verdict {
        Verdict::Refuted { stimulus, .. } | Verdict::Undecided(Cause::Free { stimulus, .. }) => {
            stimulus_value(alloc, stimulus)
        }
        Verdict::Justified(_) | Verdict::Undecided(_) => Ok(Value::Null),
    }
}
