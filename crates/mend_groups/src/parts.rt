//! What becomes of the pairs of each exception.
ghost use Rattle.std.specs.Prelude.{◌≡◌, if◌then◌else◌, [], IfOk};
ghost use Rattle.report_text.specs.Rows.{HasRows};
ghost use Rattle.std.specs.Option.{option_map};
ghost use Rattle.exception_expand.specs.Asking.{asked_by};
ghost use Rattle.exception_expand.specs.Selections as selection;
ghost use Rattle.mend_groups.specs.Rows as rows;
ghost use Rattle.mend_groups.specs.Groups as groups;
ghost use Rattle.mend_groups.specs.Parts as spec;

use crate::groups::{Group, groups_of};
use crate::ports::Ports;
use crate::rows::{Pairs, Row, are_kept, can_spell, place_after, rows_by, rows_from};
use exception_expand::Ask;
use script_types::{Script, What};
use sdcv_base::Seq;
use selected_types::{Listing, Selected};
use std::alloc::{AllocError, Global};
use verdict_types::Verdict;

/// The sides of the pairs of an exception, and the groups in which they are written again; an exception of which all are kept has no
/// group.
pub struct Part {
    pub rows: Seq<Row>,
    pub groups: Seq<Group>,
}

impl Drop for Part {
    fn drop(self) {
        let Part {
            rows: _rows,
            groups: _groups,
        } = self;
    }
}

/// What becomes of the pairs of each exception of a script, in their order, in a design of so many port bits, where hold sides are
/// judged or not.
pub fn parts_of(
    alloc: Global,
    ports: Ports,
    script: &Script,
    hold: bool,
    selected: &Selected,
    verdicts: &[Verdict],
) -> Result<Seq<Part>, AllocError>
    requires { HasRows selected.now verdicts.now }
    ensures { IfOk result (λ parts. parts ≡ spec.parts_of ports script.now hold selected.now verdicts.now) }
{
    let pairs = Pairs {
        ports,
        selected,
        verdicts,
    };
    let mut parts = Seq::new(alloc);
    let mut listed = 0;
    let mut place = 0;
    for k in 0..script.commands.len() {
        let what = &script.commands.item(k).what;
        if is_exception(what) && listed < selected.commands.len() {
            let count = count_of(&selected.commands.item(listed).listing);
            let ask = Ask::of(what, hold);
            parts.push(part_of(alloc, &pairs, place, count, &ask)?)?;
            listed += 1;
            place = place_after(place, count, verdicts.len());
        }
    }
    Ok(parts)
}

fn is_exception(what: &What) -> bool
    ensures { result ≡ selection.is_exception what.now }
{
    matches!(what, What::Claiming(_) | What::Hold(_) | What::Aside(_))
}

// How many claims an exception makes.
fn count_of(listing: &Listing) -> u64
    ensures { result ≡ spec.count_of listing.now }
{
    match listing {
        Listing::Claiming(_, _, pairs) | Listing::HoldSide(_, pairs) => *pairs,
        Listing::Hold | Listing::Aside(_) => 0,
    }
}

// The part of an exception whose pairs are so many from this place on.
fn part_of(
    alloc: Global,
    pairs: &Pairs<'_>,
    place: usize,
    count: u64,
    ask: &Option<Ask<'_>>,
) -> Result<Part, AllocError>
    requires { HasRows pairs.now.selected.now pairs.now.verdicts.now }
    ensures { IfOk result (λ part. part ≡
        spec.part_of pairs.now.ports pairs.now.selected.now pairs.now.verdicts.now place count (option_map asked_by ask.now)) }
{
    let rows = rows_of(alloc, pairs, place, count, ask)?;
    let groups = groups_for(alloc, rows.as_slice())?;
    Ok(Part { rows, groups })
}

fn rows_of(
    alloc: Global,
    pairs: &Pairs<'_>,
    place: usize,
    count: u64,
    ask: &Option<Ask<'_>>,
) -> Result<Seq<Row>, AllocError>
    requires { HasRows pairs.now.selected.now pairs.now.verdicts.now }
    ensures { IfOk result (λ made. made ≡
        spec.rows_of pairs.now.ports pairs.now.selected.now pairs.now.verdicts.now place count (option_map asked_by ask.now)) }
{
    let Some(ask) = ask else {
        return Ok(Seq::new(alloc));
    };
    let spelled = can_spell(ask.through);
    let rows = rows_from(alloc, spelled, pairs, place, count)?;
    rows_by(alloc, ask.sides, rows)
}

// The groups of an exception that has these pairs.
fn groups_for(alloc: Global, pairs: &[Row]) -> Result<Seq<Group>, AllocError>
    ensures { IfOk result (λ made. made ≡ (if rows.are_kept pairs.now then [] else groups.groups_of pairs.now)) }
{
    if are_kept(pairs) {
        Ok(Seq::new(alloc))
    } else {
        groups_of(alloc, pairs)
    }
}
