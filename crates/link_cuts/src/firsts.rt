//! Where nets first stand in a list.
ghost use Rattle.std.specs.Prelude.{◌≡◌, ◌<◌, ◌↔◌, IsTrue, IfOk, length, slice_index_or};
ghost use Rattle.link_cuts.specs.Firsts.{IsFirstRow};

use sdcv_base::Seq;
use std::alloc::{AllocError, Global};

/// For each of so many nets the place at which it first stands in a list, and the list's length where it doesn't.
pub(crate) fn first_row(
    alloc: Global,
    list: &Seq<usize>,
    nets: usize,
) -> Result<Seq<usize>, AllocError>
    ensures { IfOk result (IsFirstRow nets list.now) }
{
    let none = list.len();
    let mut row = Seq::filled(alloc, none, nets)?;
    for place in 0..list.len() {
        let net = list.at(place);
        if is_at(&row, net, none) {
            row.put(net, place);
        }
    }
    Ok(row)
}

/// Whether the row is so long, and has this number there.
fn is_at(row: &Seq<usize>, net: usize, number: usize) -> bool
    ensures { IsTrue result ↔ (net < length row.now) × (slice_index_or row.now net number ≡ number) }
{
    net < row.len() && row.at(net) == number
}
