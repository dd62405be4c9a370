//! The clock tree as rows of marks alone.
ghost use Rattle.std.specs.Prelude.{◌≡◌, ◌≤◌, ◌==◌, ℕ, count_by, length, IfOk};
ghost use Rattle.sdcv_base.specs.Seqs.{is_marked as marked};
ghost use Rattle.link_defs.specs.Circuits.{all_drivers};
ghost use Rattle.link_defs.specs.Cuts.{IsTreeOf};
ghost use Rattle.link_design.specs.Lawful.{IsLawfulCircuit};
ghost use Rattle.link_design.specs.Trees.{is_left, tree_of};

use crate::marks::is_marked;
use crate::trees::clock_tree;
use link_defs::Circuit;
use sdcv_base::Seq;
use std::alloc::{AllocError, Global};

/// Marks of the nets of a clock tree, and of those of them after an even number of inversions.
#[derive(Drop)]
pub struct ClockRows {
    pub all: Seq<bool>,
    pub even: Seq<bool>,
}

/// The clock tree of a circuit, as marks of its nets.
pub fn clock_rows(alloc: Global, circuit: &Circuit) -> Result<ClockRows, AllocError>
    requires lawful { IsLawfulCircuit circuit.now }
    requires once { (net : ℕ) → count_by (λ m. m == net) (all_drivers circuit.now) ≤ 1 }
    ensures { IfOk result (λ rows. IsTreeOf circuit.now (tree_of rows)) }
{
    let clock = clock_tree(alloc, circuit)?;
    let all = row_without(alloc, &clock.tree, &clock.lost)?;
    let even = row_without(alloc, &all, &clock.odd)?;
    Ok(ClockRows { all, even })
}

/// Marks of the nets that one row marks and the other does not.
fn row_without(
    alloc: Global,
    marks: &Seq<bool>,
    others: &Seq<bool>,
) -> Result<Seq<bool>, AllocError>
    ensures { IfOk result (λ row. (net : ℕ) → marked row net ≡ is_left marks.now others.now net) }
{
    let mut row = Seq::filled(alloc, false, marks.len())?;
    for net in 0..marks.len() {
        row.put(net, is_marked(marks, net) && !is_marked(others, net));
    }
    Ok(row)
}
