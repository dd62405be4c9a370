//! The lines of a pair.
ghost use Rattle.std.specs.Prelude.{◌≡◌, ◌++◌, OnOk};
ghost use Rattle.multicycle_text.specs.Lines.{Setup, Hold, path_text, line_text};

use sdcv_base::push_decimal;
use std::alloc::{AllocError, Global};

/// Appends the line that claims the multiplier `k` of the paths between these two cells. A name is written as it stands.
pub fn push_line(
    alloc: Global,
    text: &mut Vec<u8>,
    k: u8,
    start: &[u8],
    end: &[u8],
) -> Result<(), AllocError>
    ensures { OnOk result (text.new.items ≡ text.old.items ++ line_text (Setup (record { k = k; start = start.now; end = end.now }))) }
{
    push_path(alloc, text, k, b"", start, end)
}

/// Appends the line that leaves the hold check of the paths between these two cells where it is without the multiplier `k`.
pub fn push_hold_line(
    alloc: Global,
    text: &mut Vec<u8>,
    k: u8,
    start: &[u8],
    end: &[u8],
) -> Result<(), AllocError>
    ensures { OnOk result (text.new.items ≡ text.old.items ++ line_text (Hold (record { k = k; start = start.now; end = end.now }))) }
{
    push_path(alloc, text, k.saturating_sub(1), b" -hold", start, end)
}

// Appends a line of this number and option.
fn push_path(
    alloc: Global,
    text: &mut Vec<u8>,
    number: u8,
    option: &[u8],
    start: &[u8],
    end: &[u8],
) -> Result<(), AllocError>
    ensures { OnOk result (text.new.items ≡ text.old.items ++ path_text number option.now (record { k = number; start = start.now; end = end.now })) }
{
    text.extend_from_slice(b"set_multicycle_path ")?;
    push_decimal(alloc, text, u64::from(number))?;
    text.extend_from_slice(option)?;
    text.extend_from_slice(b" -from [get_cells {")?;
    text.extend_from_slice(start)?;
    text.extend_from_slice(b"}] -to [get_cells {")?;
    text.extend_from_slice(end)?;
    text.extend_from_slice(b"}]\n")?;
    Ok(())
}
