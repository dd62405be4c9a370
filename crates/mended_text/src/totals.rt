//! How many pairs are kept.
ghost use Rattle.std.specs.Prelude.{◌≡◌, ◌++◌, ◌&&◌, not, count_by, IfOk, OnOk, string_bytes};
ghost use Rattle.std.specs.List.{flat_map};
ghost use Rattle.mend_groups.specs.declared.rows.Row.{Row as RowRecord};
ghost use Rattle.mended_text.specs.Tellings as spec;

use crate::expected::add_rows;
use mend_groups::{Part, Row};
use mend_lines::{is_whole, kept_count};
use sdcv_base::Seq;
use std::alloc::{AllocError, Global};

// All pairs of all exceptions.
fn all_rows(alloc: Global, parts: &[Part]) -> Result<Seq<Row>, AllocError>
    ensures { IfOk result (λ rows. rows ≡ spec.all_rows parts.now) }
{
    let mut rows = Seq::new(alloc);
    for part in parts {
        add_rows(&part.rows, &mut rows)?;
    }
    Ok(rows)
}

// Adds the pairs of an exception that is not whole.
fn add_parted(part: &Part, rows: &mut Seq<Row>) -> Result<(), AllocError>
    ensures { OnOk result (rows.new ≡ rows.old ++ spec.parted_rows part.now) }
{
    if is_whole(part) {
        return Ok(());
    }
    add_rows(&part.rows, rows)
}

// The pairs of all exceptions that are not whole.
fn parted_rows(alloc: Global, parts: &[Part]) -> Result<Seq<Row>, AllocError>
    ensures { IfOk result (λ rows. rows ≡ flat_map spec.parted_rows parts.now) }
{
    let mut rows = Seq::new(alloc);
    for part in parts {
        add_parted(part, &mut rows)?;
    }
    Ok(rows)
}

#[tactic(auto, using(std::proofs::lemmas::List::Sums::count_by_more_no, std::proofs::lemmas::List::Sums::count_by_more_yes))]
fn unwritten_count(rows: &[Row]) -> usize
    ensures { result ≡ count_by (λ (r : RowRecord). r.kept && not r.written) rows.now }
{
    let mut unwritten = 0;
    for row in rows {
        if row.kept && !row.written {
            unwritten += 1;
        }
    }
    unwritten
}

/// How many pairs there are, how many are kept and how many are not, and how many are kept and not written again.
pub(crate) fn total_text(alloc: Global, parts: &[Part]) -> Result<String, AllocError>
    ensures { IfOk result (λ text. string_bytes text ≡ spec.total_text parts.now) }
{
    let rows = all_rows(alloc, parts)?;
    let parted = parted_rows(alloc, parts)?;
    let pairs = rows.len();
    let kept = kept_count(rows.as_slice());
    let left = pairs - kept;
    let unwritten = unwritten_count(parted.as_slice());
    format!(in alloc; "total {pairs} kept {kept} left {left} unwritten {unwritten}")
}
