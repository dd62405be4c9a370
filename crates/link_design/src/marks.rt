//! Questions about nets by rows over them.
ghost use Rattle.std.specs.Prelude.{◌≡◌, true, false, None, IfSome, IfNone, All, Contains, slice_index_or};
ghost use Rattle.std.specs.List.{list_any};
ghost use Rattle.sdcv_base.specs.Seqs.{is_marked};
ghost use Rattle.link_design.specs.Rows.{is_driven};

use sdcv_base::Seq;

/// Whether a net is marked.
pub(crate) fn is_marked(marks: &Seq<bool>, net: usize) -> bool
    ensures { result ≡ is_marked marks.now net }
{
    net < marks.len() && marks.at(net)
}

/// The clock gate above a net, if any, by a row of them.
pub(crate) fn gate_above(above: &Seq<Option<usize>>, net: usize) -> Option<usize>
    ensures { result ≡ slice_index_or above.now net None }
{
    if net < above.len() {
        above.at(net)
    } else {
        None
    }
}

/// Whether one of these nets is marked.
pub(crate) fn has_marked(marks: &Seq<bool>, nets: &[usize]) -> bool
    ensures { result ≡ list_any (is_marked marks.now) nets.now }
{
    nets.iter().any(|net| is_marked(marks, *net))
}

/// The first of these nets that is marked, if any.
pub(crate) fn first_marked(marks: &Seq<bool>, nets: &[usize]) -> Option<usize>
    ensures some { IfSome result (λ net. Contains nets.now net × (is_marked marks.now net ≡ true)) }
    ensures none { IfNone result (All (λ net. is_marked marks.now net ≡ false) nets.now) }
{
    nets.iter().copied().find(|net| is_marked(marks, *net))
}

/// Whether a net has one of so many drivers, by the row of the drivers' places.
fn is_driven(row: &Seq<usize>, drivers: usize, net: usize) -> bool
    ensures { result ≡ is_driven row.now drivers net }
{
    net < row.len() && row.at(net) < drivers
}

/// The first of these nets that has no driver, if any.
pub(crate) fn first_undriven(row: &Seq<usize>, drivers: usize, nets: &[usize]) -> Option<usize>
    ensures some { IfSome result (λ net. Contains nets.now net × (is_driven row.now drivers net ≡ false)) }
    ensures none { IfNone result (All (λ net. is_driven row.now drivers net ≡ true) nets.now) }
{
    nets.iter()
        .copied()
        .find(|net| !is_driven(row, drivers, *net))
}
