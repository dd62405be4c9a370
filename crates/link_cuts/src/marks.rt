//! Rows of marks.
ghost use Rattle.std.specs.Prelude.{◌≡◌, IfOk};
ghost use Rattle.sdcv_base.specs.Seqs.{is_marked};
ghost use Rattle.net_model.specs.Netlist.{AllBelow};
ghost use Rattle.link_cuts.specs.Cutting.{IsRowOf};

use sdcv_base::Seq;
use std::alloc::{AllocError, Global};

/// Whether a place is marked.
pub(crate) fn is_marked(marks: &Seq<bool>, place: usize) -> bool
    ensures { result ≡ is_marked marks.now place }
{
    place < marks.len() && marks.at(place)
}

/// A row over so many nets that marks these.
pub(crate) fn row_of(alloc: Global, list: &Seq<usize>, nets: usize) -> Result<Seq<bool>, AllocError>
    requires { AllBelow nets list.now }
    ensures { IfOk result (IsRowOf nets list.now) }
{
    let mut row = Seq::filled(alloc, false, nets)?;
    for place in 0..list.len() {
        row.put(list.at(place), true);
    }
    Ok(row)
}
