//! The lines of the pairs that are found.
ghost use Rattle.std.specs.Prelude.{◌≡◌, ◌++◌, IfOk, OnOk};
ghost use Rattle.std.specs.List.{flat_map};
ghost use Rattle.answer_lines.specs.Texts.{bytes_of_lines};
ghost use Rattle.found_pairs.specs.Tellings.{is_found, pair_line, pair_lines};

use crate::lines::is_written;
use mcp_detect::Tried;
use std::alloc::{AllocError, Global};

/// Whether a multiplier is found for the pair.
pub(crate) fn is_found(tried: &Tried) -> bool
    ensures { result ≡ is_found tried.now }
{
    tried.k >= 2
}

fn pair_line(alloc: Global, tried: &Tried) -> Result<Vec<u8>, AllocError>
    ensures { IfOk result (λ line. line.items ≡ pair_line tried.now) }
{
    let word = if is_written(tried) {
        "found"
    } else {
        "unwritten"
    };
    let (start, end, k) = (&tried.start, &tried.end, tried.k);
    Ok(format!(in alloc; "{word} {start} -> {end} multi {k}\n")?.into_bytes())
}

// Adds the line of the pair, if a multiplier is found for it.
fn add_pair(alloc: Global, tried: &Tried, lines: &mut Vec<Vec<u8>>) -> Result<(), AllocError>
    ensures { OnOk result (bytes_of_lines lines.new.items ≡ bytes_of_lines lines.old.items ++ pair_lines tried.now) }
{
    if is_found(tried) {
        lines.push(pair_line(alloc, tried)?)?;
    }
    Ok(())
}

/// Adds the lines of the pairs that are found.
pub(crate) fn add_pairs(
    alloc: Global,
    tried: &[Tried],
    lines: &mut Vec<Vec<u8>>,
) -> Result<(), AllocError>
    ensures { OnOk result (bytes_of_lines lines.new.items ≡ bytes_of_lines lines.old.items ++ flat_map pair_lines tried.now) }
{
    for pair in tried {
        add_pair(alloc, pair, lines)?;
    }
    Ok(())
}
