//! Lines where they stand in a text.
ghost use Rattle.std.specs.Prelude.{◌≡◌, ◌≢◌, ◌+◌, ◌++◌, length, IfOk, IfErr, OnOk};
ghost use Rattle.sdcv_base.specs.Cursors.{rest, place_of};
ghost use Rattle.cert_lines.specs.Kinds.{text_of, first_words, IsVersion, inv_words, IsInvHead, kept_words, IsKept};
ghost use Rattle.cert_lines.specs.Kinds.{head_words, IsCount, section_words, IsSection, step_words, IsStep};
ghost use Rattle.cert_lines.specs.Texts.{IsFault};

use crate::faults::Fault;
use crate::heads::{InvHead, read_first, read_head, read_inv};
use crate::kept::read_kept;
use crate::places::{fault_of, next_line};
use crate::sections::{Section, read_section};
use crate::steps::read_step;
use net_model::{InvClause, Phase};
use proof_log::DerivStep;
use sdcv_base::Cursor;
use std::alloc::Global;

/// Passes the first line; the value is the version.
pub fn take_first(cursor: &mut Cursor<'_>) -> Result<u64, Fault>
    ensures ok { IfOk result (λ v. IsVersion v × (rest cursor.old ≡ text_of first_words v ++ rest cursor.new)) }
    ensures place { OnOk result (place_of cursor.new + length (rest cursor.new) ≡ place_of cursor.old + length (rest cursor.old)) }
    ensures err { IfErr result (IsFault IsVersion (text_of first_words) (rest cursor.old) (place_of cursor.old)) }
    ensures told { IfErr result (λ e. e ≢ Fault.Memory) }
{
    let line = next_line(cursor);
    match read_first(line.text, line.cut) {
        Ok(value) => {
            cursor.skip(line.text.len() + 1);
            Ok(value)
        }
        Err(stop) => Err(fault_of(&line, stop)),
    }
}

/// Passes the line of kept clauses.
pub fn take_inv(cursor: &mut Cursor<'_>) -> Result<InvHead, Fault>
    ensures ok { IfOk result (λ v. IsInvHead v × (rest cursor.old ≡ text_of inv_words v ++ rest cursor.new)) }
    ensures place { OnOk result (place_of cursor.new + length (rest cursor.new) ≡ place_of cursor.old + length (rest cursor.old)) }
    ensures err { IfErr result (IsFault IsInvHead (text_of inv_words) (rest cursor.old) (place_of cursor.old)) }
    ensures told { IfErr result (λ e. e ≢ Fault.Memory) }
{
    let line = next_line(cursor);
    match read_inv(line.text, line.cut) {
        Ok(value) => {
            cursor.skip(line.text.len() + 1);
            Ok(value)
        }
        Err(stop) => Err(fault_of(&line, stop)),
    }
}

/// Passes the line of a kept clause, which may be long or not.
pub fn take_kept(alloc: Global, cursor: &mut Cursor<'_>, long: bool) -> Result<InvClause, Fault>
    ensures ok { IfOk result (λ v. IsKept long v × (rest cursor.old ≡ text_of kept_words v ++ rest cursor.new)) }
    ensures place { OnOk result (place_of cursor.new + length (rest cursor.new) ≡ place_of cursor.old + length (rest cursor.old)) }
    ensures err { IfErr result (IsFault (IsKept long) (text_of kept_words) (rest cursor.old) (place_of cursor.old)) }
{
    let line = next_line(cursor);
    match read_kept(alloc, line.text, line.cut, long) {
        Ok(value) => {
            cursor.skip(line.text.len() + 1);
            Ok(value)
        }
        Err(stop) => Err(fault_of(&line, stop)),
    }
}

/// Passes the first line of a derivation; the value is the number of its steps.
pub fn take_head(cursor: &mut Cursor<'_>, phase: Phase) -> Result<u64, Fault>
    ensures ok { IfOk result (λ v. IsCount v × (rest cursor.old ≡ text_of (head_words phase) v ++ rest cursor.new)) }
    ensures place { OnOk result (place_of cursor.new + length (rest cursor.new) ≡ place_of cursor.old + length (rest cursor.old)) }
    ensures err { IfErr result (IsFault IsCount (text_of (head_words phase)) (rest cursor.old) (place_of cursor.old)) }
    ensures told { IfErr result (λ e. e ≢ Fault.Memory) }
{
    let line = next_line(cursor);
    match read_head(phase, line.text, line.cut) {
        Ok(value) => {
            cursor.skip(line.text.len() + 1);
            Ok(value)
        }
        Err(stop) => Err(fault_of(&line, stop)),
    }
}

/// Passes the first line of a pair, or the last line.
pub fn take_section(cursor: &mut Cursor<'_>) -> Result<Section, Fault>
    ensures ok { IfOk result (λ v. IsSection v × (rest cursor.old ≡ text_of section_words v ++ rest cursor.new)) }
    ensures place { OnOk result (place_of cursor.new + length (rest cursor.new) ≡ place_of cursor.old + length (rest cursor.old)) }
    ensures err { IfErr result (IsFault IsSection (text_of section_words) (rest cursor.old) (place_of cursor.old)) }
    ensures told { IfErr result (λ e. e ≢ Fault.Memory) }
{
    let line = next_line(cursor);
    match read_section(line.text, line.cut) {
        Ok(value) => {
            cursor.skip(line.text.len() + 1);
            Ok(value)
        }
        Err(stop) => Err(fault_of(&line, stop)),
    }
}

/// Passes the line of a step.
pub fn take_step(alloc: Global, cursor: &mut Cursor<'_>) -> Result<DerivStep, Fault>
    ensures ok { IfOk result (λ v. IsStep v × (rest cursor.old ≡ text_of step_words v ++ rest cursor.new)) }
    ensures place { OnOk result (place_of cursor.new + length (rest cursor.new) ≡ place_of cursor.old + length (rest cursor.old)) }
    ensures err { IfErr result (IsFault IsStep (text_of step_words) (rest cursor.old) (place_of cursor.old)) }
{
    let line = next_line(cursor);
    match read_step(alloc, line.text, line.cut) {
        Ok(value) => {
            cursor.skip(line.text.len() + 1);
            Ok(value)
        }
        Err(stop) => Err(fault_of(&line, stop)),
    }
}
