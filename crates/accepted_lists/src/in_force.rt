//! What the lines of a list accept on a day.
ghost use Rattle.std.specs.Prelude.{◌≡◌, ◌++◌, IfOk, OnOk, flat_map};
ghost use Rattle.accepted_lists.specs.InForce as spec;

use crate::accepted::copy_entry;
use crate::days::{Day, is_over};
use crate::lists::{AcceptedList, Entry, LastDay, ListLine};
use crate::pair_entries::PairEntry;
use sdcv_base::{Name, Seq};
use std::alloc::{AllocError, Global};

// Adds the entry on pairs that a line is on a day.
fn add_pairs(
    alloc: Global,
    today: Option<Day>,
    line: &ListLine,
    out: &mut Seq<PairEntry>,
) -> Result<(), AllocError>
    ensures { OnOk result (out.new ≡ out.old ++ spec.pairs_on today line.now) }
{
    if is_over(today, line.until) {
        return Ok(());
    }
    if let Entry::OnPairs(entry) = &line.entry {
        let entry = copy_entry(alloc, entry)?;
        out.push(entry)?;
    }
    Ok(())
}

fn all_pairs(
    alloc: Global,
    today: Option<Day>,
    lines: &[ListLine],
) -> Result<Seq<PairEntry>, AllocError>
    ensures { IfOk result (λ all. all ≡ flat_map (spec.pairs_on today) lines.now) }
{
    let mut out = Seq::new(alloc);
    for line in lines {
        add_pairs(alloc, today, line, &mut out)?;
    }
    Ok(out)
}

// Adds the note that a line is on a day.
fn add_note(
    alloc: Global,
    today: Option<Day>,
    line: &ListLine,
    out: &mut Seq<Name>,
) -> Result<(), AllocError>
    ensures { OnOk result (out.new ≡ out.old ++ spec.notes_on today line.now) }
{
    if is_over(today, line.until) {
        return Ok(());
    }
    if let Entry::OnNote(words) = &line.entry {
        let words = words.copy(alloc)?;
        out.push(words)?;
    }
    Ok(())
}

fn all_notes(alloc: Global, today: Option<Day>, lines: &[ListLine]) -> Result<Seq<Name>, AllocError>
    ensures { IfOk result (λ all. all ≡ flat_map (spec.notes_on today) lines.now) }
{
    let mut out = Seq::new(alloc);
    for line in lines {
        add_note(alloc, today, line, &mut out)?;
    }
    Ok(out)
}

/// What the lines accept on a day: those whose last day is over accept nothing. Where no day is given, none is over.
pub fn list_on(
    alloc: Global,
    today: Option<Day>,
    lines: &[ListLine],
) -> Result<AcceptedList, AllocError>
    ensures { IfOk result (λ list. list ≡ spec.list_on today lines.now) }
{
    let pairs = all_pairs(alloc, today, lines)?;
    let notes = all_notes(alloc, today, lines)?;
    Ok(AcceptedList { pairs, notes })
}

/// The last days of the lines that have one.
pub fn last_days(alloc: Global, lines: &[ListLine]) -> Result<Seq<LastDay>, AllocError>
    ensures { IfOk result (λ all. all ≡ flat_map spec.last_days lines.now) }
{
    let mut out = Seq::new(alloc);
    for line in lines {
        if let Some(last) = line.until {
            out.push(LastDay {
                line: line.number,
                last,
            })?;
        }
    }
    Ok(out)
}
