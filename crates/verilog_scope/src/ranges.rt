//! Ranges of buses, and selections of their bits.
ghost use Rattle.std.specs.Prelude.{◌≡◌, ◌≤◌};
ghost use Rattle.verilog_scope.specs.Ranges as spec;

use verilog_syntax::{Range, Select};

/// Bits that stand together: the first, counted from the most significant or from the first net, and how many they are.
#[derive(Clone, Copy, PartialEq, Eq)]
pub struct Run {
    pub first: usize,
    pub count: usize,
}

fn distance(a: u16, b: u16) -> usize
    ensures value { result ≡ spec.distance a b }
    ensures most { result ≤ 65535 }
{
    usize::from(if a <= b { b - a } else { a - b })
}

/// How many bits a name has: one without a range.
pub fn width(range: &Option<Range>) -> usize
    ensures value { result ≡ spec.width range.now }
    ensures most { result ≤ 65536 }
{
    match range {
        None => 1,
        Some(range) => distance(range.msb, range.lsb) + 1,
    }
}

/// Whether two ranges go from the same number to the same.
pub fn same_range(a: &Option<Range>, b: &Option<Range>) -> bool
    ensures { result ≡ spec.same_range a.now b.now }
{
    match (a, b) {
        (None, None) => true,
        (Some(a), Some(b)) => a.msb == b.msb && a.lsb == b.lsb,
        _ => false,
    }
}

fn in_order(a: u16, b: u16, c: u16, d: u16) -> bool
    ensures { result ≡ spec.in_order a b c d }
{
    a <= b && b <= c && c <= d
}

/// The bits of a range from `i` to `j`, which has to go the range's way.
fn part_of(range: &Range, i: u16, j: u16) -> Option<Run>
    ensures { result ≡ spec.part_of range.now i j }
{
    if in_order(range.msb, i, j, range.lsb) || in_order(range.lsb, j, i, range.msb) {
        Some(Run {
            first: distance(range.msb, i),
            count: distance(i, j) + 1,
        })
    } else {
        None
    }
}

/// The bits of a name of this range that are selected.
#[tactic(auto, unfolding(crate::specs::Ranges::selected))]
pub fn selected(range: &Option<Range>, select: &Select) -> Option<Run>
    ensures { result ≡ spec.selected range.now select.now }
{
    match (range, select) {
        (_, Select::All) => Some(Run {
            first: 0,
            count: width(range),
        }),
        (None, _) => None,
        (Some(range), Select::Bit(i)) => part_of(range, *i, *i),
        (Some(range), Select::Slice(i, j)) => part_of(range, *i, *j),
    }
}
