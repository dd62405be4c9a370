//! How many pairs are tried, found and written.
ghost use Rattle.std.specs.Prelude.{◌≡◌, IfOk, count_by};
ghost use Rattle.found_pairs.specs.Lines.{is_written};
ghost use Rattle.found_pairs.specs.Tellings.{is_found, total_line};

use crate::lines::is_written;
use crate::told_pairs::is_found;
use mcp_detect::Tried;
use std::alloc::{AllocError, Global};

#[tactic(auto, using(std::proofs::lemmas::List::Sums::count_by_more_no, std::proofs::lemmas::List::Sums::count_by_more_yes))]
fn found_count(tried: &[Tried]) -> usize
    ensures { result ≡ count_by is_found tried.now }
{
    let mut found = 0;
    for pair in tried {
        if is_found(pair) {
            found += 1;
        }
    }
    found
}

#[tactic(auto, using(std::proofs::lemmas::List::Sums::count_by_more_no, std::proofs::lemmas::List::Sums::count_by_more_yes))]
fn written_count(tried: &[Tried]) -> usize
    ensures { result ≡ count_by is_written tried.now }
{
    let mut written = 0;
    for pair in tried {
        if is_written(pair) {
            written += 1;
        }
    }
    written
}

/// The last line.
pub(crate) fn total_line(alloc: Global, tried: &[Tried]) -> Result<Vec<u8>, AllocError>
    ensures { IfOk result (λ line. line.items ≡ total_line tried.now) }
{
    let pairs = tried.len();
    let found = found_count(tried);
    let written = written_count(tried);
    let line = format!(in alloc; "total tried {pairs} found {found} written {written}\n")?;
    Ok(line.into_bytes())
}
