//! The pairs of an exception.
ghost use Rattle.std.specs.Prelude.{◌≡◌, ◌+◌, ◌<◌, ◌^◌, min, IfOk};
ghost use Rattle.std.specs.List.{list_all};
ghost use Rattle.report_text.specs.Rows.{HasRows};
ghost use Rattle.report_text.specs.Words as report;
ghost use Rattle.mend_groups.specs.Rows as spec;

use crate::ports::{EndClass, Ports, class_of, is_named_start};
use exception_expand::Sides;
use multicycle_text::writable;
use net_model::{End, Start};
use report_text::{PairRow, row_at};
use script_types::Object;
use sdcv_base::{Edge, Seq};
use selected_types::Selected;
use std::alloc::{AllocError, Global};
use texts::is_word;
use verdict_types::Verdict;

/// A selected side of a pair: its place among the claims of the selection, from 0, the pair's start and its end, of which class the end
/// is, which changes of its start count, whether it is the early side, whether it is kept, and whether it is written again where its
/// command is not whole.
#[derive(Clone, Copy)]
pub struct Row {
    pub place: usize,
    pub start: Start,
    pub edge: Edge,
    pub end: End,
    pub class: EndClass,
    pub early: bool,
    pub kept: bool,
    pub written: bool,
    /// Whether its command claims the other side of the pair too, and that is written again.
    pub beside: bool,
}

/// The pairs that are selected in a design of so many port bits, and what is found out about each.
#[derive(Clone, Copy)]
pub(crate) struct Pairs<'a> {
    pub ports: Ports,
    pub selected: &'a Selected,
    pub verdicts: &'a [Verdict],
}

/// So many pairs from this place on, of an exception whose through lists can be written or not.
pub(crate) fn rows_from(
    alloc: Global,
    spelled: bool,
    pairs: &Pairs<'_>,
    place: usize,
    count: u64,
) -> Result<Seq<Row>, AllocError>
    requires { HasRows pairs.now.selected.now pairs.now.verdicts.now }
    ensures { IfOk result (λ rows. rows ≡ spec.rows_from pairs.now.ports spelled pairs.now.selected.now pairs.now.verdicts.now place count) }
{
    let mut rows = Seq::new(alloc);
    for at in place..place_after(place, count, pairs.verdicts.len()) {
        let found = row_at(pairs.selected, pairs.verdicts, at);
        rows.push(row_of(pairs.ports, spelled, at, &found))?;
    }
    Ok(rows)
}

/// The place after so many pairs from this one on, or that after all pairs.
pub(crate) fn place_after(place: usize, count: u64, all: usize) -> usize
    ensures { result ≡ min (place + count) all }
{
    if place < all && count < (all - place) as u64 {
        place + count as usize
    } else {
        all
    }
}

fn row_of(ports: Ports, spelled: bool, place: usize, found: &PairRow) -> Row
    ensures { result ≡ spec.row_by ports spelled place found.now.pair.now found.now.claim.now found.now.verdict.now }
{
    let kept = is_justified(found.verdict);
    Row {
        place,
        start: found.claim.start,
        edge: found.claim.edge,
        end: found.claim.end,
        class: class_of(ports, found.claim.end),
        early: found.claim.early,
        kept,
        written: kept
            && is_named_start(ports, found.claim.start)
            && spelled
            && writable(found.pair.start.as_bytes())
            && writable(found.pair.end.as_bytes()),
        beside: false,
    }
}

/// The pairs of an exception that claims these sides: where it claims both, each with whether the other one is written too.
pub(crate) fn rows_by(alloc: Global, sides: Sides, rows: Seq<Row>) -> Result<Seq<Row>, AllocError>
    ensures { IfOk result (λ made. made ≡ spec.rows_by sides rows) }
{
    match sides {
        Sides::Late | Sides::Early => Ok(rows),
        Sides::Both => paired(alloc, &rows),
    }
}

fn paired(alloc: Global, rows: &Seq<Row>) -> Result<Seq<Row>, AllocError>
    ensures { IfOk result (λ made. made ≡ spec.paired rows.now) }
{
    let mut made = Seq::new(alloc);
    for place in 0..rows.len() {
        made.push(with_beside(rows, place, rows.at(place)))?;
    }
    Ok(made)
}

fn with_beside(rows: &Seq<Row>, place: usize, row: Row) -> Row
    requires { place + 1 < 2 ^ 64 }
    ensures { result ≡ spec.with_beside rows.now place row }
{
    Row {
        beside: is_written_at(rows, other_place(place)),
        ..row
    }
}

// The sides of a pair stand together, the late one first.
fn other_place(place: usize) -> usize
    requires { place + 1 < 2 ^ 64 }
    ensures { result ≡ spec.other_place place }
{
    if place % 2 == 0 { place + 1 } else { place - 1 }
}

fn is_written_at(rows: &Seq<Row>, place: usize) -> bool
    ensures { result ≡ spec.is_written_at rows.now place }
{
    match rows.as_slice().get(place) {
        Some(row) => row.written,
        None => false,
    }
}

fn is_justified(verdict: &Verdict) -> bool
    ensures { result ≡ report.is_justified verdict.now }
{
    match verdict {
        Verdict::Justified(_) => true,
        Verdict::Refuted { .. } | Verdict::Undecided(_) => false,
    }
}

/// Whether all these pairs are kept.
pub(crate) fn are_kept(rows: &[Row]) -> bool
    ensures { result ≡ spec.are_kept rows.now }
{
    rows.iter().all(|row| row.kept)
}

/// Whether each pattern of these through lists can be written.
pub(crate) fn can_spell(through: &Seq<Seq<Object>>) -> bool
    ensures { result ≡ spec.can_spell through.now }
{
    through
        .as_slice()
        .iter()
        .all(|objects| are_spellable(objects.as_slice()))
}

fn are_spellable(objects: &[Object]) -> bool
    ensures { result ≡ list_all spec.is_object_spellable objects.now }
{
    objects.iter().all(|object| is_object_spellable(object))
}

fn is_object_spellable(object: &Object) -> bool
    ensures { result ≡ spec.is_object_spellable object.now }
{
    match object {
        Object::Named(query) => is_spellable(query.pattern.as_bytes()),
        Object::AllInputs | Object::AllOutputs | Object::AllRegisters | Object::AllClocks => true,
    }
}

fn is_spellable(pattern: &[u8]) -> bool
    ensures { result ≡ spec.is_spellable pattern.now }
{
    !pattern.is_empty() && pattern[0] != b'-' && are_pattern_bytes(pattern)
}

fn are_pattern_bytes(pattern: &[u8]) -> bool
    ensures { result ≡ list_all spec.is_pattern_byte pattern.now }
{
    pattern.iter().all(|byte| is_pattern_byte(*byte))
}

fn is_pattern_byte(byte: u8) -> bool
    ensures { result ≡ spec.is_pattern_byte byte }
{
    is_word(byte)
        || matches!(
            byte,
            b'$' | b'/' | b'[' | b']' | b'.' | b':' | b'-' | b'*' | b'?'
        )
}
