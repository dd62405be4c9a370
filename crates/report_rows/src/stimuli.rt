//! The stimulus of a pair.
ghost use Rattle.std.specs.Prelude.{◌≡◌, ◌++◌, IfOk, IfErr, OnOk, map, length};
ghost use Rattle.std.specs.Option.{option_map};
ghost use Rattle.witness_replay.specs.StimulusTexts.{line_of};
ghost use Rattle.serde_json.specs.View.{view};
ghost use Rattle.report_rows.specs.Words.{when};
ghost use Rattle.report_rows.specs.Members.{with_all};
ghost use Rattle.report_rows.specs.Stimuli as spec;
ghost use Rattle.report_rows.specs.Stimuli.{IsStimulusIn, IsStimulusCause};

use crate::faults::ReportFault;
use crate::json_reports::value_of;
use crate::members::{count_in, list_in, text_in};
use crate::reads::is_json;
use net_model::Stimulus;
use serde_json::Value;
use std::alloc::{AllocError, Global};
use witness_replay::{StimFault, read_stim};

/// The members of a stimulus.
#[derive(Clone, Copy)]
pub struct StimulusMembers<'v> {
    pub state: &'v str,
    pub inputs: &'v [Value],
}

// The pair of this number.
fn pair_numbered<'v>(pairs: &'v [Value], number: u64) -> Option<&'v Value>
    ensures { option_map (λ pair. view pair.now) result ≡ spec.pair_numbered number (map view pairs.entry.now) }
{
    for pair in pairs {
        if count_in(pair, "number") == Some(number) {
            return Some(pair);
        }
    }
    None
}

// The stimulus of the pair of this number.
#[tactic(auto, unfolding(crate::specs::Stimuli::members_of))]
fn members_of<'v>(value: &'v Value, number: u64) -> Option<StimulusMembers<'v>>
    ensures { option_map spec.seen_members result ≡ spec.members_of number (view value.entry.now) }
{
    let pair = pair_numbered(list_in(value, "pairs")?, number)?;
    let stimulus = pair.get("stimulus")?;
    let state = text_in(stimulus, "state")?;
    let inputs = list_in(stimulus, "inputs")?;
    Some(StimulusMembers { state, inputs })
}

// Appends the line of a cycle's input bits; answers whether the value is a text.
fn push_input(out: &mut Vec<u8>, value: &Value) -> Result<bool, AllocError>
    ensures { IfOk result (λ fits. when fits out.new.items ≡ spec.with_input out.old.items (view value.now)) }
{
    let Some(bits) = value.as_str() else {
        return Ok(false);
    };
    out.extend_from_slice(b"input ")?;
    out.extend_from_slice(bits.as_bytes())?;
    out.push(b'\n')?;
    Ok(true)
}

// Appends the lines of all input bits; answers whether all values are texts.
fn push_inputs(out: &mut Vec<u8>, values: &[Value]) -> Result<bool, AllocError>
    ensures { IfOk result (λ fits. when fits out.new.items ≡ with_all spec.with_input out.old.items (map view values.now)) }
{
    for value in values {
        if !push_input(out, value)? {
            return Ok(false);
        }
    }
    Ok(true)
}

// The lines of a block before its inputs.
fn front(alloc: Global, number: u64, members: &StimulusMembers<'_>) -> Result<Vec<u8>, AllocError>
    ensures { IfOk result (λ text. text.items ≡ spec.front number (length members.now.inputs.now) members.now.state.now) }
{
    let count = members.inputs.len();
    let state = members.state;
    let head = format!(in alloc; "stimulus {number} cycles {count}")?;
    let mut out = Vec::from_slice(alloc, head.as_bytes())?;
    out.extend_from_slice(b"\nstate ")?;
    out.extend_from_slice(state.as_bytes())?;
    out.push(b'\n')?;
    Ok(out)
}

// The block of a stimulus, as a report by lines has it.
#[tactic(auto, unfolding(crate::specs::Stimuli::block_of))]
fn block_of(
    alloc: Global,
    number: u64,
    members: &StimulusMembers<'_>,
) -> Result<Option<Vec<u8>>, AllocError>
    ensures { IfOk result (λ text. option_map (λ t. t.items) text ≡ spec.block_of number (spec.seen_members members.now)) }
{
    let mut out = front(alloc, number, members)?;
    if !push_inputs(&mut out, members.inputs)? {
        return Ok(None);
    }
    out.extend_from_slice(b"end\n")?;
    Ok(Some(out))
}

// The block of the stimulus of the pair of this number.
#[tactic(auto, unfolding(crate::specs::Stimuli::block_in))]
fn block_in(alloc: Global, value: &Value, number: u64) -> Result<Option<Vec<u8>>, AllocError>
    ensures { IfOk result (λ text. option_map (λ t. t.items) text ≡ spec.block_in number (view value.now)) }
{
    match members_of(value, number) {
        Some(members) => block_of(alloc, number, &members),
        None => Ok(None),
    }
}

// The stimulus of a pair in a report as JSON.
fn json_stimulus(alloc: Global, text: &[u8], number: u64) -> Result<Stimulus, StimFault>
    ensures ok { IfOk result (spec.IsJsonStimulus text.now number) }
    ensures err { IfErr result (spec.IsJsonStimulusCause text.now number) }
{
    let value = match value_of(alloc, text) {
        Ok(value) => value,
        Err(ReportFault::Memory) => return Err(StimFault::Memory),
        Err(_) => return Err(StimFault::NoBlock),
    };
    match block_in(alloc, &value, number)? {
        Some(block) => read_stim(alloc, &block, number),
        None => Err(StimFault::NoBlock),
    }
}

/// The stimulus of the pair of this number in a report, by lines or as JSON.
///
/// `NoBlock` where the report has none for it. `Form` with the line at which a stimulus breaks its form: in a report by
/// lines its number there; in JSON 2 for the state, and 3 for the input bits of cycle 0, 4 for those of cycle 1, and so on.
pub fn stimulus_of(alloc: Global, text: &[u8], number: u64) -> Result<Stimulus, StimFault>
    ensures ok { IfOk result (IsStimulusIn text.now number) }
    ensures err { IfErr result (IsStimulusCause text.now number) }
{
    if is_json(text) {
        json_stimulus(alloc, text, number)
    } else {
        read_stim(alloc, text, number)
    }
}
