//! How many pairs of an exception are kept, and how many commands select them.
ghost use Rattle.std.specs.Prelude.{◌≡◌, ◌==◌, ◌≤◌, [], not, count_by, length, ◌&&◌};
ghost use Rattle.std.specs.List.{list_any};
ghost use Rattle.mend_lines.specs.Bodies as bodies;
ghost use Rattle.mend_lines.specs.Holds as holds;
ghost use Rattle.mend_lines.specs.Lines as lines;

use mend_groups::{EndClass, Group, Part, Row, is_end_class};

/// Whether all pairs of an exception are kept, so that it stays as it is written.
pub fn is_whole(part: &Part) -> bool
    ensures { result ≡ holds.is_whole part.now }
{
    part.rows.as_slice().iter().all(|row| row.kept)
}

/// How many of some pairs are kept.
#[tactic(auto, using(std::proofs::lemmas::List::Sums::count_by_more_no, std::proofs::lemmas::List::Sums::count_by_more_yes))]
pub fn kept_count(rows: &[Row]) -> usize
    ensures { result ≡ bodies.kept_count rows.now }
{
    let mut kept = 0;
    for row in rows {
        if row.kept {
            kept += 1;
        }
    }
    kept
}

/// How many commands the groups of an exception become.
pub fn line_count(part: &Part) -> u128
    ensures { result ≡ lines.line_count part.now.groups }
{
    let mut count = 0;
    for group in part.groups.as_slice() {
        count += group_count(group);
    }
    count
}

// One where some of its ends are registers, one where some are bits of ports, and one where some are sinks.
fn group_count(group: &Group) -> u128
    ensures count { result ≡ length (lines.rests_of [] [] group.now) }
    ensures few { result ≤ 3 }
{
    class_count(EndClass::Regs, group)
        + class_count(EndClass::Ports, group)
        + class_count(EndClass::Sinks, group)
}

fn class_count(class: EndClass, group: &Group) -> u128
    ensures count { result ≡ length (lines.rests_in [] [] group.now class) }
    ensures few { result ≤ 1 }
{
    if has_line(class, group) { 1 } else { 0 }
}

// Whether the group has a start, and an end of the class.
fn has_line(class: EndClass, group: &Group) -> bool
    ensures { result ≡ (list_any (λ star. not (length star == 0)) group.now.stars && list_any (lines.is_named class) (lines.first_star group.now)) }
{
    has_start(group) && has_end(class, group)
}

fn has_start(group: &Group) -> bool
    ensures { result ≡ list_any (λ star. not (length star == 0)) group.now.stars }
{
    group.stars.as_slice().iter().any(|star| star.len() != 0)
}

fn has_end(class: EndClass, group: &Group) -> bool
    ensures { result ≡ list_any (lines.is_named class) (lines.first_star group.now) }
{
    match group.stars.as_slice().first() {
        Some(star) => star.as_slice().iter().any(|row| is_named(class, row)),
        None => false,
    }
}

/// Whether the end of a pair is named among those of a class.
pub(crate) fn is_named(class: EndClass, row: &Row) -> bool
    ensures { result ≡ lines.is_named class row.now }
{
    is_end_class(class, row.class) && !(row.early && row.beside)
}
