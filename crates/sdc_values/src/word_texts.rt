//! Words that are no nested commands: their texts, with the values of variables in them.
ghost use Rattle.std.specs.Prelude.{◌≡◌, []};
ghost use Rattle.std.specs.Option.{option_map};
ghost use Rattle.texts.specs.Rules.{Gives};
ghost use Rattle.sdc_values.specs.Told.{Fails};
ghost use Rattle.sdc_values.specs.Texts as spec;
ghost use Rattle.sdcv_base.specs.Steps.{after_all};

use crate::loans::Loan;
use crate::values::{Said, Value};
use crate::variables::Variables;
use script_types::SdcFault;
use sdc_words::Piece;
use sdcv_base::{Name, Seq};
use std::alloc::Global;

/// The value of a variable, for a command on this line.
#[tactic(auto, unfolding(crate::specs::Texts::variable_of))]
fn variable<'a>(
    alloc: Global,
    vars: &'a Variables,
    line: u64,
    name: &Name,
) -> Result<&'a Value, SdcFault>
    ensures { Gives Fails (λ v. v.now) result (spec.variable_of vars.entry.now line name.now) }
{
    match vars.value(name) {
        Some(value) => Ok(value),
        None => Err(SdcFault::UnknownVariable(line, name.copy(alloc)?)),
    }
}

pub fn text_within(offset: usize, value: &Value) -> Result<&Name, SdcFault>
    ensures { Gives Fails (λ t. t.now) result (spec.text_within offset value.entry.now) }
{
    match value {
        Value::Text(text) => Ok(text),
        Value::Objects(_) => Err(SdcFault::Syntax(offset)),
    }
}

/// Adds the text of a piece.
#[tactic(auto, unfolding(crate::specs::Texts::adds_piece))]
fn add_piece(
    alloc: Global,
    vars: &Variables,
    line: u64,
    offset: usize,
    found: &mut Vec<u8>,
    piece: &Piece,
) -> Result<(), SdcFault>
    ensures { Gives Fails (λ _. found.new.items) result (spec.adds_piece vars.now line offset found.old.items piece.now) }
{
    let text = match piece {
        Piece::Bytes(bytes) => bytes,
        Piece::Variable(name) => text_within(offset, variable(alloc, vars, line, name)?)?,
    };
    found.extend_from_slice(text.as_bytes())?;
    Ok(())
}

/// The texts of pieces, one after the other.
fn joined(
    alloc: Global,
    vars: &Variables,
    line: u64,
    offset: usize,
    pieces: &[Piece],
) -> Result<Vec<u8>, SdcFault>
    ensures { Gives Fails (λ text. text.items) result (after_all (spec.adds_piece vars.now line offset) [] pieces.now) }
{
    let mut found = Vec::new(alloc);
    for piece in pieces {
        add_piece(alloc, vars, line, offset, &mut found, piece)?;
    }
    Ok(found)
}

fn lone_variable(pieces: &[Piece]) -> Option<&Name>
    ensures { option_map (λ n. n.now) result ≡ spec.lone_variable pieces.entry.now }
{
    match pieces {
        [Piece::Variable(name)] => Some(name),
        _ => None,
    }
}

#[tactic(auto, unfolding(crate::specs::Texts::value_by))]
pub fn value<'a>(
    alloc: Global,
    vars: &'a Variables,
    line: u64,
    offset: usize,
    pieces: &[Piece],
) -> Result<Loan<'a, Value>, SdcFault>
    ensures { Gives Fails (λ v. v) result (spec.value_by vars.entry.now line offset pieces.now) }
{
    if let Some(name) = lone_variable(pieces) {
        let value = variable(alloc, vars, line, name)?;
        return Ok(Loan::lent(value));
    }
    let text = joined(alloc, vars, line, offset, pieces)?;
    Ok(Loan::own(Value::Text(Name::from_vec(text))))
}

/// What a word of these pieces says, at this offset of a command on this line. `UnknownVariable` comes for a variable that
/// is not set, and `Syntax` at the offset where a list of objects is only a part of the word.
pub fn said_text<'a>(
    alloc: Global,
    vars: &'a Variables,
    line: u64,
    offset: usize,
    pieces: &Seq<Piece>,
) -> Result<Said<'a>, SdcFault>
    ensures { Gives Fails (λ s. s) result (spec.said_text vars.entry.now line offset pieces.now) }
{
    let value = value(alloc, vars, line, offset, pieces.as_slice())?;
    Ok(Said { offset, value })
}
