//! The two lines that tell a refusal.
ghost use Rattle.std.specs.Prelude.{◌≡◌, ◌∷◌, [], IfOk, drop, take, string_bytes};
ghost use Rattle.std.specs.Option.{option_map};
ghost use Rattle.refusal_words.specs.Rows.{seen_row};
ghost use Rattle.refusal_words.specs.Sections.{seen_names, seen_section};
ghost use Rattle.refusal_words.specs.Tellings as spec;

use crate::causes::filled;
use crate::designs::{design_rows, top_rows};
use crate::fields::{after_head, first_word, part_word, shown_text};
use crate::further::further_rows;
use crate::numbers::number_in;
use crate::places::{Place, line_rest, place_of};
use crate::rows::{Row, Spot, row_in};
use crate::sections::{FileNames, Section, file_of, section_of};
use crate::sources::text_rows;
use std::alloc::{AllocError, Global};

/// How many bytes of a text are quoted.
const QUOTED: usize = 40;

/// A row of words, and the part that refuses.
#[derive(Clone, Copy)]
struct Found {
    row: Row,
    section: Section,
}

// Whether the line refuses the word that names the top module.
#[tactic(auto, unfolding(crate::specs::Tellings::is_of_top))]
fn is_of_top(alloc: Global, top: Option<&[u8]>, line: &[u8]) -> Result<bool, AllocError>
    ensures { IfOk result (λ b. b ≡ spec.is_of_top (option_map (λ t. t.now) top.entry) line.now) }
{
    match top {
        Some(top) => {
            let top = shown_text(alloc, top)?;
            let said = after_head(line, "refused link 14 BadSetting");
            Ok(line.starts_with(b"refused link 14 BadSetting") && said == top.as_bytes())
        }
        None => Ok(false),
    }
}

// The row of a line, but for those of the top module.
#[tactic(auto, unfolding(crate::specs::Tellings::row_among))]
fn row_among(line: &[u8]) -> Option<Row>
    ensures { option_map seen_row result ≡ spec.row_among line.now }
{
    match row_in(text_rows(), line) {
        Some(row) => Some(row),
        None => match row_in(design_rows(), line) {
            Some(row) => Some(row),
            None => row_in(further_rows(), line),
        },
    }
}

// The row of a line.
#[tactic(auto, unfolding(crate::specs::Tellings::row_of))]
fn row_of(alloc: Global, top: Option<&[u8]>, line: &[u8]) -> Result<Option<Row>, AllocError>
    ensures { IfOk result (λ row. option_map seen_row row ≡ spec.row_of (option_map (λ t. t.now) top.entry) line.now) }
{
    if is_of_top(alloc, top, line)? {
        Ok(row_in(top_rows(), line))
    } else {
        Ok(row_among(line))
    }
}

// A row and a part, where both are there.
fn found_with(row: Option<Row>, section: Option<Section>) -> Option<Found>
    ensures { option_map spec.seen_found result ≡ spec.found_with (option_map seen_row row) (option_map seen_section section) }
{
    match row {
        Some(row) => match section {
            Some(section) => Some(Found { row, section }),
            None => None,
        },
        None => None,
    }
}

// What is found for a line.
#[tactic(auto, unfolding(crate::specs::Tellings::found_of))]
fn found_of(alloc: Global, names: &FileNames<'_>, line: &[u8]) -> Result<Option<Found>, AllocError>
    ensures { IfOk result (λ found. option_map spec.seen_found found ≡ spec.found_of (seen_names names.now) line.now) }
{
    let row = row_of(alloc, names.top, line)?;
    Ok(found_with(row, section_of(part_word(line))))
}

// The offset that a word gives.
fn offset_in(word: &[u8]) -> usize
    ensures { result ≡ spec.offset_in word.now }
{
    match number_in(word) {
        Some(offset) => offset as usize,
        None => 0,
    }
}

// Where the line says that it is, in words.
#[tactic(auto, unfolding(crate::specs::Tellings::place_text))]
fn place_text(
    alloc: Global,
    spot: Spot,
    file: &str,
    word: &[u8],
    text: Option<&[u8]>,
) -> Result<String, AllocError>
    ensures { IfOk result (λ place. string_bytes place ≡ spec.place_text spot file.now word.now (option_map (λ t. t.now) text.entry)) }
{
    let shown = shown_text(alloc, word)?;
    match spot {
        Spot::Whole => String::from_str(alloc, file),
        Spot::Line => format!(in alloc; "{file}:{shown}"),
        Spot::Offset => match text {
            Some(text) => {
                let Place { line, column } = place_of(text, offset_in(word));
                format!(in alloc; "{file}:{line}:{column}")
            }
            None => format!(in alloc; "{file}: byte {shown}"),
        },
    }
}

// The first bytes of a text, at most so many.
fn front(text: &[u8], most: usize) -> &[u8]
    ensures { result.now ≡ take most text.now }
{
    &text[..most.min(text.len())]
}

// What is left of a line, as it is quoted.
#[tactic(auto, unfolding(crate::specs::Tellings::quoted))]
fn quoted(alloc: Global, rest: &[u8]) -> Result<String, AllocError>
    ensures { IfOk result (λ text. string_bytes text ≡ spec.quoted rest.now) }
{
    if rest.is_empty() {
        return String::from_str(alloc, ", at the end");
    }
    let part = shown_text(alloc, front(rest, QUOTED))?;
    format!(in alloc; ": \"{part}\"")
}

// What stands at an offset of the text, where the line has one.
#[tactic(auto, unfolding(crate::specs::Tellings::quote_text))]
fn quote_text(
    alloc: Global,
    spot: Spot,
    word: &[u8],
    text: Option<&[u8]>,
) -> Result<String, AllocError>
    ensures { IfOk result (λ quote. string_bytes quote ≡ spec.quote_text spot word.now (option_map (λ t. t.now) text.entry)) }
{
    match spot {
        Spot::Offset => match text {
            Some(text) => quoted(alloc, line_rest(text, offset_in(word))),
            None => Ok(String::new(alloc)),
        },
        Spot::Whole => Ok(String::new(alloc)),
        Spot::Line => Ok(String::new(alloc)),
    }
}

// Where and why.
#[tactic(auto, unfolding(crate::specs::Tellings::cause_text))]
fn cause_text(
    alloc: Global,
    names: &FileNames<'_>,
    line: &[u8],
    text: Option<&[u8]>,
    found: &Found,
) -> Result<String, AllocError>
    ensures { let seen = spec.seen_found found.now in
        IfOk result (λ told. string_bytes told ≡ spec.cause_text (seen_names names.now) line.now (option_map (λ t. t.now) text.entry) seen) }
{
    let Found { row, section } = *found;
    let said = after_head(line, row.head);
    let word = first_word(said);
    let place = place_text(alloc, row.spot, file_of(names, section.source), word, text)?;
    let cause = filled(alloc, row.cause.as_bytes(), said, names.cells.as_bytes())?;
    let quote = quote_text(alloc, row.spot, word, text)?;
    format!(in alloc; "{place}: {cause}{quote}")
}

// What to do, and the section of the page that has more.
#[tactic(auto, unfolding(crate::specs::Tellings::remedy_text))]
fn remedy_text(alloc: Global, found: &Found) -> Result<String, AllocError>
    ensures { IfOk result (λ told. string_bytes told ≡ spec.remedy_text (spec.seen_found found.now)) }
{
    let remedy = found.row.remedy;
    let anchor = found.section.anchor;
    format!(in alloc; "{remedy} (docs/REFUSALS.md#{anchor})")
}

// The two lines of what is found.
#[tactic(auto, unfolding(crate::specs::Tellings::told_text))]
fn told_text(
    alloc: Global,
    program: &str,
    names: &FileNames<'_>,
    line: &[u8],
    text: Option<&[u8]>,
    found: Found,
) -> Result<String, AllocError>
    ensures { let seen = spec.seen_found found in
        IfOk result (λ told. string_bytes told
        ≡ spec.told_text program.now (seen_names names.now) line.now (option_map (λ t. t.now) text.entry) seen) }
{
    let cause = cause_text(alloc, names, line, text, &found)?;
    let remedy = remedy_text(alloc, &found)?;
    format!(in alloc; "{program}: {cause}\n{program}: {remedy}\n")
}

// The two lines of what is found, if anything is.
fn told_of(
    alloc: Global,
    program: &str,
    names: &FileNames<'_>,
    line: &[u8],
    text: Option<&[u8]>,
    found: Option<Found>,
) -> Result<Option<String>, AllocError>
    ensures { let seen = option_map spec.seen_found found in
        IfOk result (λ told. option_map string_bytes told
        ≡ option_map (spec.told_text program.now (seen_names names.now) line.now (option_map (λ t. t.now) text.entry)) seen) }
{
    match found {
        Some(found) => Ok(Some(told_text(alloc, program, names, line, text, found)?)),
        None => Ok(None),
    }
}

// The name of the file at an offset of which the cause is.
fn file_in<'a>(names: &FileNames<'a>, found: Option<Found>) -> Option<&'a str>
    ensures { option_map (λ t. t.now) result ≡ spec.file_in (seen_names names.now) (option_map spec.seen_found found) }
{
    match found {
        Some(found) => match found.row.spot {
            Spot::Offset => Some(file_of(names, found.section.source)),
            Spot::Whole => None,
            Spot::Line => None,
        },
        None => None,
    }
}

/// The name of the file at an offset of which the line says that the cause is. Without its text the offset alone is told.
pub fn file_to_read<'a>(
    alloc: Global,
    names: &FileNames<'a>,
    line: &[u8],
) -> Result<Option<&'a str>, AllocError>
    ensures { IfOk result (λ file. option_map (λ t. t.now) file ≡ spec.file_to_read (seen_names names.now) line.now) }
{
    let found = found_of(alloc, names, line)?;
    Ok(file_in(names, found))
}

/// The two lines that tell a refusal, each with its newline: where it is and why, and what to do, with the section of the page
/// that has more. `line` is the one that was printed, without its newline, and `text` what the file that it speaks of has now.
/// A line that is no refusal tells nothing.
pub fn told_refusal(
    alloc: Global,
    program: &str,
    names: &FileNames<'_>,
    line: &[u8],
    text: Option<&[u8]>,
) -> Result<Option<String>, AllocError>
    ensures { let told_lines = spec.told_refusal program.now (seen_names names.now) line.now (option_map (λ t. t.now) text.entry) in
        IfOk result (λ told. option_map string_bytes told ≡ told_lines) }
{
    let found = found_of(alloc, names, line)?;
    told_of(alloc, program, names, line, text, found)
}
