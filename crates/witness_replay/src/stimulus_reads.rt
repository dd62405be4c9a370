//! The stimulus in a report.
ghost use Rattle.std.specs.Prelude.{◌≡◌, ◌≢◌, ℕ, ◌<◌, ◌+◌, ◌^◌, ◌||◌, nat_eq, List, [], ◌∷◌, ◌++◌, length, map, codes, Some, ⊤, IfOk, IfErr, OnOk, MatchOption};
ghost use Rattle.std.specs.List.{starts_with};
ghost use Rattle.std.specs.Str.{bytes_eq};
ghost use Rattle.std.specs.Fmt.{decimal};
ghost use Rattle.net_model.specs.declared.cycles.Stimulus.{Stimulus as StimulusRecord};
ghost use Rattle.witness_replay.specs.StimulusTexts.{digits_of, input_line, title_of, head_of};
ghost use Rattle.witness_replay.specs.Blocks.{lines, from_block, block_in, HasFirstBlock, IsStimCause, IsWritten, Recalls};
ghost use Rattle.witness_replay.specs.BlockParts.{left, next_number, LacksRow, IsMissing, IsInputFault, IsBlockFault, ReadsBlock};

use crate::faults::StimFault;
use crate::lines::Lines;
use crate::rows::row_bits;
use crate::stimulus_texts::push_title;
use net_model::Stimulus;
use sdcv_base::{Seq, push_decimal, read_decimal};
use std::alloc::{AllocError, Global};

/// Whether a line is the title, or begins with the title and a space, the opening.
fn is_head(line: &[u8], title: &[u8], opening: &[u8]) -> bool
    ensures { result ≡ (bytes_eq line.now title.now || starts_with nat_eq line.now opening.now) }
{
    line == title || line.starts_with(opening)
}

/// The lines from the first one on at which a block of this title begins.
fn first_block<'a>(report: Lines<'a>, title: &[u8], opening: &[u8]) -> Option<Lines<'a>>
    requires { opening.now ≡ title.now ++ 32 ∷ [] }
    ensures left { MatchOption result (from_block title.now (left report.entry) ≡ [])
        (λ block. (from_block title.now (left report.entry) ≡ left block) × (0 < length (left block))) }
    ensures number { MatchOption result ⊤ (λ block. next_number block + length (left block) ≡ next_number report.entry + length (left report.entry)) }
{
    let mut block = report;
    let mut ahead = report;
    while let Some(line) = ahead.next_line() {
        if is_head(line, title, opening) {
            return Some(block);
        }
        block = ahead;
    }
    None
}

/// The lines of a report from the first block of this number on.
fn find_block(alloc: Global, report: &[u8], number: u64) -> Result<Option<Lines<'_>>, AllocError>
    ensures left { IfOk result (λ o. MatchOption o (block_in number report.now ≡ []) (λ block. (block_in number report.now ≡ left block)
        × (0 < length (left block)))) }
    ensures number { IfOk result (λ o. MatchOption o ⊤ (λ block. next_number block + length (left block) ≡ length (lines report.now) + 1)) }
{
    let mut title = Vec::new(alloc);
    push_title(alloc, &mut title, number)?;
    let mut opening = Vec::from_slice(alloc, &title)?;
    opening.push(b' ')?;
    Ok(first_block(Lines::new(report), &title, &opening))
}

/// The number in the digits that follow this front of a line.
fn number_after(line: &[u8], front: &[u8]) -> Option<u64>
    ensures { (n : ℕ) → n < 2 ^ 64 → line.now ≡ front.now ++ decimal n → result ≡ Some n }
{
    read_decimal(line.strip_prefix(front)?, u64::MAX)
}

/// How many cycles the first line of a block of this number says; `None` where it is no such line.
fn head_count(alloc: Global, line: &[u8], number: u64) -> Result<Option<u64>, AllocError>
    ensures { IfOk result (λ o. MatchOption o ((n : ℕ) → n < 2 ^ 64 → line.now ≢ head_of number n) (λ n. line.now ≡ head_of number n)) }
{
    let mut head = Vec::new(alloc);
    push_title(alloc, &mut head, number)?;
    head.extend_from_slice(b" cycles ")?;
    let Some(count) = number_after(line, &head) else {
        return Ok(None);
    };
    push_decimal(alloc, &mut head, count)?;
    // digits with a leading zero are another line than the one that is written
    Ok(if line == head.as_slice() {
        Some(count)
    } else {
        None
    })
}

/// Passes the first line of a block, and says how many cycles it has.
fn take_head(alloc: Global, lines: &mut Lines<'_>, number: u64) -> Result<u64, StimFault>
    ensures ok { IfOk result (λ n. left lines.old ≡ head_of number n ∷ left lines.new) }
    ensures number { OnOk result (next_number lines.new ≡ next_number lines.old + 1) }
    ensures err { IfErr result (IsMissing (next_number lines.old) ((n : ℕ) (others : List (List ℕ)) → n < 2 ^ 64 → left lines.old ≢ head_of number n
        ∷ others)) }
{
    let line = lines.due_line()?;
    head_count(alloc, line, number)?.ok_or(StimFault::Form(lines.number()))
}

/// Passes a line of this word and bits.
fn take_row(alloc: Global, lines: &mut Lines<'_>, word: &[u8]) -> Result<Seq<bool>, StimFault>
    ensures ok { IfOk result (λ bits. left lines.old ≡ (word.now ++ digits_of bits) ∷ left lines.new) }
    ensures number { OnOk result (next_number lines.new ≡ next_number lines.old + 1) }
    ensures err { IfErr result (IsMissing (next_number lines.old) (LacksRow word.now (left lines.old))) }
{
    let line = lines.due_line()?;
    row_bits(alloc, line, word)?.ok_or(StimFault::Form(lines.number()))
}

/// Passes so many lines of input bits. Memory is taken for lines that are there, whatever count is said.
fn take_inputs(
    alloc: Global,
    lines: &mut Lines<'_>,
    count: u64,
) -> Result<Seq<Seq<bool>>, StimFault>
    ensures ok { IfOk result (λ rows. left lines.old ≡ map input_line rows ++ left lines.new) }
    ensures count { IfOk result (λ rows. length rows ≡ count) }
    ensures number { OnOk result (next_number lines.new ≡ next_number lines.old + count) }
    ensures err { IfErr result (IsInputFault count (left lines.old) (next_number lines.old)) }
{
    let mut rows = Seq::new(alloc);
    for _ in 0..count {
        rows.push(take_row(alloc, lines, b"input ")?)?;
    }
    Ok(rows)
}

/// Passes the last line of a block.
fn take_end(lines: &mut Lines<'_>) -> Result<(), StimFault>
    ensures ok { OnOk result (left lines.old ≡ codes "end" ∷ left lines.new) }
    ensures err { IfErr result (IsMissing (next_number lines.old) ((others : List (List ℕ)) → left lines.old ≢ codes "end" ∷ others)) }
{
    let line = lines.due_line()?;
    if line == b"end".as_slice() {
        Ok(())
    } else {
        Err(StimFault::Form(lines.number()))
    }
}

/// Reads the block of this number that comes next.
fn read_block(alloc: Global, lines: &mut Lines<'_>, number: u64) -> Result<Stimulus, StimFault>
    ensures ok { IfOk result (ReadsBlock number (left lines.old)) }
    ensures err { IfErr result (IsBlockFault number (left lines.old) (next_number lines.old)) }
{
    let count = take_head(alloc, lines, number)?;
    let state = take_row(alloc, lines, b"state ")?;
    let inputs = take_inputs(alloc, lines, count)?;
    take_end(lines)?;
    Ok(Stimulus { state, inputs })
}

/// The stimulus of this number in a report: that of its first block of the number, whose lines are those that `write_stim`
/// writes. The newline of a last line may be missing; other lines round the block are passed over.
///
/// `NoBlock` where no line is `stimulus NUMBER` or begins with it and a space, `Form` with the first line of the block that
/// breaks its form, or that comes after the last where the report ends early. A row may have any number of bits.
pub fn read_stim(alloc: Global, report: &[u8], number: u64) -> Result<Stimulus, StimFault>
    ensures ok { IfOk result (HasFirstBlock number report.now) }
    ensures err { IfErr result (IsStimCause number report.now) }
    // A report has at most one stimulus of a number.
    ensures only { (s : StimulusRecord) → HasFirstBlock number report.now s → Recalls result s }
    // What was written is read back.
    ensures back { (s : StimulusRecord) → IsWritten number report.now s → Recalls result s }
{
    let mut block = find_block(alloc, report, number)?.ok_or(StimFault::NoBlock)?;
    read_block(alloc, &mut block, number)
}
