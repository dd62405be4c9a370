//! The numbers of a design's nets and gates.
ghost use Rattle.std.specs.Prelude.{◌≡◌, ◌-◌};
ghost use Rattle.std.specs.List.{list_any};
ghost use Rattle.sdcv_base.specs.Seqs.{is_marked as marked};
ghost use Rattle.link_defs.specs.Designs.{is_on_tree};
ghost use Rattle.net_link.specs.Numbers.{number_in};

use link_defs::Part;
use sdcv_base::Seq;

/// For each net of a circuit its number in the rewritten design, and a mark if it is the clock tree's; how many nets this design
/// has, and how many of them inputs and registers drive. A net that is none of the design has the number of the design's nets.
#[derive(Drop)]
pub(crate) struct Numbering<'a> {
    pub(crate) numbers: &'a Seq<usize>,
    pub(crate) tree: &'a Seq<bool>,
    pub(crate) nets: usize,
    pub(crate) sources: usize,
}

impl<'a> Numbering<'a> {
    /// The number of a net.
    pub(crate) fn number(&self, net: usize) -> usize
        ensures { result ≡ number_in self.now.numbers.now self.now.nets net }
    {
        if net < self.numbers.len() {
            self.numbers.at(net)
        } else {
            self.nets
        }
    }

    /// The number of the gate that drives a net.
    pub(crate) fn gate(&self, net: usize) -> usize
        ensures { result ≡ number_in self.now.numbers.now self.now.nets net - self.now.sources }
    {
        self.number(net).saturating_sub(self.sources)
    }

    /// Whether a part is a buffer or inverter of the clock tree.
    pub(crate) fn is_on_tree(&self, part: &Part) -> bool
        ensures { result ≡ is_on_tree self.now.tree.now part.now }
    {
        match part {
            Part::Comb { buffer, ins, .. } => *buffer && has_marked(self.tree, ins.as_slice()),
            Part::Flop { .. } => false,
            Part::Gate { .. } => false,
        }
    }
}

/// Whether a net is marked.
fn is_marked(marks: &Seq<bool>, net: usize) -> bool
    ensures { result ≡ marked marks.now net }
{
    net < marks.len() && marks.at(net)
}

/// Whether one of these nets is marked.
fn has_marked(marks: &Seq<bool>, nets: &[usize]) -> bool
    ensures { result ≡ list_any (marked marks.now) nets.now }
{
    nets.iter().any(|net| is_marked(marks, *net))
}
