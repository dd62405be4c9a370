//! Pairs: the two literals by which a further point of a cycle is defined, and the key of that point.
ghost use Rattle.std.specs.Prelude.{◌≡◌, ◌<◌, ◌≤◌, ◌^◌};
ghost use Rattle.frame_unroll.specs.Reading.{IsSubject};
ghost use Rattle.frame_unroll.specs.Pairs as pairs;

use crate::conditions::{CHANGE, DIFFER, STALE, TOGGLE, extra_lit};
use crate::gathered::{capture_lit, late_capture_lit, start_lit};
use crate::subjects::Subject;
use crate::violations::opposite_of;
use net_model::Edge;
use query_model::{Key, KeyLit};

/// Two literals by which a key is defined: it says that they differ, or where `both` that both are true.
#[derive(Debug, Clone, Copy, PartialEq, Eq)]
pub struct Pair {
    pub out: Key,
    pub first: KeyLit,
    pub second: KeyLit,
    pub both: bool,
}

/// That the second literal changes to the first one with an edge.
fn edge_pair(edge: Edge, out: Key, first: KeyLit, second: KeyLit) -> Pair
    ensures { result ≡ pairs.edge_pair edge out first second }
{
    match edge {
        Edge::Any => Pair {
            out,
            first,
            second,
            both: false,
        },
        Edge::Rise => Pair {
            out,
            first,
            second: opposite_of(second),
            both: true,
        },
        Edge::Fall => Pair {
            out,
            first: opposite_of(first),
            second,
            both: true,
        },
    }
}

/// That the start's bit is another one than in the cycle before, as the claim's edge says.
pub fn toggle_pair(subject: &Subject, cycle: usize) -> Pair
    requires subject { IsSubject subject.now }
    ensures { result ≡ pairs.toggle_pair subject.now.design.now subject.now.claim.now cycle }
{
    let out = extra_lit(subject.design, cycle, TOGGLE, true).key;
    let now = start_lit(subject, cycle);
    let before = start_lit(subject, cycle.saturating_sub(1));
    edge_pair(subject.claim.edge, out, now, before)
}

/// That the end captures another bit than in the cycle before.
pub fn change_pair(subject: &Subject, cycle: usize) -> Pair
    requires subject { IsSubject subject.now }
    requires cycle { cycle < 2 ^ 32 }
    ensures { result ≡ pairs.change_pair subject.now.design.now subject.now.claim.now cycle }
{
    Pair {
        out: extra_lit(subject.design, cycle, CHANGE, true).key,
        first: capture_lit(subject, cycle),
        second: capture_lit(subject, cycle.saturating_sub(1)),
        both: false,
    }
}

/// The literal that the late capture on the first rail is compared with: that on the second where hazards count, else the
/// capture.
fn compared_lit(subject: &Subject, cycle: usize) -> KeyLit
    requires subject { IsSubject subject.now }
    requires cycle { cycle < 2 ^ 32 }
    ensures { result ≡ pairs.compared_lit subject.now.design.now subject.now.claim.now subject.now.moved cycle }
{
    if subject.claim.hazard {
        late_capture_lit(subject, cycle, 1)
    } else {
        capture_lit(subject, cycle)
    }
}

/// That the end's late capture differs, or where hazards count that it may be 1 and may be 0.
pub fn differ_pair(subject: &Subject, cycle: usize) -> Pair
    requires subject { IsSubject subject.now }
    requires cycle { cycle < 2 ^ 32 }
    ensures { result ≡ pairs.differ_pair subject.now.design.now subject.now.claim.now subject.now.moved cycle }
{
    Pair {
        out: extra_lit(subject.design, cycle, DIFFER, true).key,
        first: late_capture_lit(subject, cycle, 0),
        second: compared_lit(subject, cycle),
        both: subject.claim.hazard,
    }
}

/// That the start's bit is another one than before a toggle so many cycles ago.
pub fn stale_pair(subject: &Subject, cycle: usize, later: usize) -> Pair
    requires subject { IsSubject subject.now }
    requires few { later < 2 ^ 31 }
    ensures { result ≡ pairs.stale_pair subject.now.design.now subject.now.claim.now cycle later }
{
    let before = cycle.saturating_sub(later).saturating_sub(1);
    Pair {
        out: extra_lit(subject.design, cycle, STALE + later, true).key,
        first: start_lit(subject, cycle),
        second: start_lit(subject, before),
        both: false,
    }
}
