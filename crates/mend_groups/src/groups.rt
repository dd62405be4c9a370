//! Groups of pairs that commands select together.
ghost use Rattle.std.specs.Prelude.{◌≡◌, ◌+◌, ◌<◌, ◌≤◌, ◌++◌, IfOk, OnOk, length, take, drop, slice_get, IfSome, true};
ghost use Rattle.script_notices.specs.Notices.{is_start as one_start, is_end as one_end};
ghost use Rattle.mend_groups.specs.Groups as spec;

use crate::rows::Row;
use exception_expand::Sides;
use net_model::{End, Start};
use script_notices::is_edge;
use sdcv_base::Seq;
use std::alloc::{AllocError, Global};

/// Starts of one class that have the same ends: for each of them, in the order of the design, its written pairs, by their ends in
/// the order of the design. No list is empty.
pub struct Group {
    pub stars: Seq<Seq<Row>>,
}

impl Drop for Group {
    fn drop(self) {
        let Group { stars: _stars } = self;
    }
}

/// The groups of the written ones: of the pairs with both sides, of those with the late one alone, and of those with the early one.
pub(crate) fn groups_of(alloc: Global, rows: &[Row]) -> Result<Seq<Group>, AllocError>
    ensures { IfOk result (λ groups. groups ≡ spec.groups_of rows.now) }
{
    let mut groups = groups_as(alloc, Sides::Both, rows)?;
    let mut late = groups_as(alloc, Sides::Late, rows)?;
    let mut early = groups_as(alloc, Sides::Early, rows)?;
    late.append(&mut early)?;
    groups.append(&mut late)?;
    Ok(Seq::from_vec(groups))
}

// The groups of the pairs of which just these sides are written.
fn groups_as(alloc: Global, sides: Sides, rows: &[Row]) -> Result<Vec<Group>, AllocError>
    ensures { IfOk result (λ groups. groups.items ≡ spec.groups_as sides rows.now) }
{
    let written = written_as(alloc, sides, rows)?;
    let mut groups = Vec::new(alloc);
    let mut place = 0;
    while place < written.len() {
        let rest = &written[place..];
        let count = star_len(rest);
        add_star(alloc, &mut groups, Seq::of(alloc, &rest[..count])?)?;
        place += count;
    }
    Ok(groups)
}

fn written_as(alloc: Global, sides: Sides, rows: &[Row]) -> Result<Vec<Row>, AllocError>
    ensures { IfOk result (λ written. written.items ≡ spec.written_as sides rows.now) }
{
    let mut written = Vec::new(alloc);
    for row in rows {
        if is_written_as(sides, row) {
            written.push(*row)?;
        }
    }
    Ok(written)
}

// Whether of a side's pair just these sides are written.
fn is_written_as(sides: Sides, row: &Row) -> bool
    ensures { result ≡ spec.is_written_as sides row.now }
{
    match sides {
        Sides::Both => row.written && row.beside,
        Sides::Late => row.written && !row.beside && !row.early,
        Sides::Early => row.written && !row.beside && row.early,
    }
}

// How many of the first pairs have the start of the first one.
fn star_len(rows: &[Row]) -> usize
    requires { 0 < length rows.now }
    ensures is { result ≡ spec.star_len rows.now }
    ensures some { 0 < result }
    ensures within { result ≤ length rows.now }
{
    run_of(rows[0].start, &rows[1..]) + 1
}

fn run_of(start: Start, rows: &[Row]) -> usize
    ensures is { result ≡ spec.run_of start rows.now }
    ensures within { result ≤ length rows.now }
{
    for (k, row) in rows.iter().enumerate() {
        if !is_start(start, row.start) {
            return k;
        }
    }
    rows.len()
}

// The pairs of one start more: they join the first group with which they go, or begin one at the list's end.
fn add_star(alloc: Global, groups: &mut Vec<Group>, star: Seq<Row>) -> Result<(), AllocError>
    ensures { OnOk result (groups.new.items ≡ spec.with_star groups.old.items star) }
{
    let place = place_for(groups, star.as_slice());
    if place < groups.len() {
        groups[place].stars.push(star)?;
    } else {
        groups.push(Group {
            stars: Seq::one(alloc, star)?,
        })?;
    }
    Ok(())
}

// The place of the first group with which these pairs go, or that of the list's end.
fn place_for(groups: &[Group], star: &[Row]) -> usize
    ensures within { result ≤ length groups.now }
    ensures passed { spec.with_star groups.now star.now ≡ take result groups.now ++ spec.with_star (drop result groups.now) star.now }
    ensures fits { IfSome (slice_get groups.now result) (λ g. spec.fits_in star.now g ≡ true) }
{
    for k in 0..groups.len() {
        if fits_in(star, &groups[k]) {
            return k;
        }
    }
    groups.len()
}

fn fits_in(star: &[Row], group: &Group) -> bool
    ensures { result ≡ spec.fits_in star.now group.now }
{
    match group.stars.as_slice() {
        [] => false,
        [head, ..] => are_alike(head.as_slice(), star),
    }
}

fn are_alike(first: &[Row], second: &[Row]) -> bool
    ensures { result ≡ spec.are_alike first.now second.now }
{
    match (first, second) {
        ([a, ..], [b, ..]) => is_like(*a, *b) && have_ends(first, second),
        _ => false,
    }
}

fn is_like(a: Row, b: Row) -> bool
    ensures { result ≡ spec.is_like a b }
{
    is_class(a.start, b.start) && is_edge(a.edge, b.edge)
}

fn have_ends(first: &[Row], second: &[Row]) -> bool
    ensures { result ≡ spec.have_ends first.now second.now }
{
    if first.len() != second.len() {
        return false;
    }
    for k in 0..first.len() {
        if !is_end(first[k].end, second[k].end) {
            return false;
        }
    }
    true
}

fn is_start(a: Start, b: Start) -> bool
    ensures { result ≡ one_start a b }
{
    match (a, b) {
        (Start::Reg(a), Start::Reg(b)) | (Start::Input(a), Start::Input(b)) => a == b,
        _ => false,
    }
}

fn is_end(a: End, b: End) -> bool
    ensures { result ≡ one_end a b }
{
    match (a, b) {
        (End::Reg(a), End::Reg(b)) | (End::Output(a), End::Output(b)) => a == b,
        _ => false,
    }
}

fn is_class(a: Start, b: Start) -> bool
    ensures { result ≡ spec.is_class a b }
{
    match (a, b) {
        (Start::Reg(_), Start::Reg(_)) | (Start::Input(_), Start::Input(_)) => true,
        _ => false,
    }
}
