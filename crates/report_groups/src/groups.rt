//! The groups of the pairs.
ghost use Rattle.std.specs.Prelude.{◌≡◌, ◌++◌, ℕ, List, IfOk, OnOk, map};
ghost use Rattle.texts.specs.Names.{with_name};
ghost use Rattle.report_groups.specs.Firsts.{group_where_first};
ghost use Rattle.report_groups.specs.Counts.{AreCountsOf};
ghost use Rattle.report_groups.specs.Groups as spec;

use crate::counts::Counts;
use crate::keys::{copy_row, key_of, keys_of, starred_rows};
use report_rows::PairRow;
use sdcv_base::{Name, Seq};
use std::alloc::{AllocError, Global};
use texts::NameTable;

/// Pairs that differ in their number and in the indices of their names alone.
#[derive(Drop)]
pub struct Group {
    /// The row of its first pair, with each `[digits]` of start and end as `[*]`.
    pub row: PairRow,
    /// How many pairs it has.
    pub pairs: u64,
}

// Adds the group of a row, where the row is the first with its key.
fn add_group(
    alloc: Global,
    counts: &Counts,
    row: &PairRow,
    seen: &mut NameTable,
    groups: &mut Seq<Group>,
) -> Result<(), AllocError>
    ensures seen { OnOk result (seen.new ≡ with_name seen.old (spec.key_of row.now)) }
    ensures groups { OnOk result ((keys : List (List ℕ)) → AreCountsOf keys counts.now
        → groups.new ≡ groups.old ++ group_where_first keys seen.old row.now) }
{
    let key = key_of(alloc, row)?;
    if !seen.add(alloc, &key)? {
        return Ok(());
    }
    let pairs = counts.count(&key);
    let row = copy_row(alloc, row)?;
    groups.push(Group { row, pairs })?;
    Ok(())
}

// The groups of rows without indices, each with its key.
fn groups_among(alloc: Global, rows: &[PairRow], keys: &[Name]) -> Result<Seq<Group>, AllocError>
    requires { keys.now ≡ map spec.key_of rows.now }
    ensures { IfOk result (λ groups. groups ≡ spec.groups_among rows.now) }
{
    let counts = Counts::of(alloc, keys)?;
    let mut seen = NameTable::new(alloc);
    let mut groups = Seq::new(alloc);
    for row in rows {
        add_group(alloc, &counts, row, &mut seen, &mut groups)?;
    }
    Ok(groups)
}

/// The groups of these pairs, in the order of the first pair of each.
pub(crate) fn groups_of(alloc: Global, pairs: &[PairRow]) -> Result<Seq<Group>, AllocError>
    ensures { IfOk result (λ groups. groups ≡ spec.groups_of pairs.now) }
{
    let rows = starred_rows(alloc, pairs)?;
    let keys = keys_of(alloc, &rows)?;
    groups_among(alloc, &rows, &keys)
}
