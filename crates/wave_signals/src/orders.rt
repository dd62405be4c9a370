//! The order in which bits are shown.
use crate::bits::BitKind;
use crate::splits::SplitBit;
use sdcv_base::{Name, Seq};
use std::cmp::Ordering;

fn name_order(a: &Name, b: &Name) -> Ordering {
    a.as_bytes().cmp(b.as_bytes())
}

/// Scopes part by part, so that all that is in a scope stands together, and the scope itself before those in it.
fn scope_order(a: &Seq<Name>, b: &Seq<Name>) -> Ordering {
    for (x, y) in a.as_slice().iter().zip(b.as_slice()) {
        match name_order(x, y) {
            Ordering::Equal => {}
            other => return other,
        }
    }
    a.len().cmp(&b.len())
}

/// Registers by front, by back, and from the highest index down.
fn reg_order(a: &SplitBit, b: &SplitBit) -> Ordering {
    name_order(&a.stem.front, &b.stem.front)
        .then(name_order(&a.stem.back, &b.stem.back))
        .then(b.index.cmp(&a.index))
}

/// By scope, wires before registers. Wires of a scope stay as they are listed, so that a bus keeps its declared direction.
pub(crate) fn bit_order(a: &SplitBit, b: &SplitBit) -> Ordering {
    let kinds = match (a.kind, b.kind) {
        (BitKind::Wire, BitKind::Reg) => Ordering::Less,
        (BitKind::Reg, BitKind::Wire) => Ordering::Greater,
        (BitKind::Wire, BitKind::Wire) => Ordering::Equal,
        (BitKind::Reg, BitKind::Reg) => reg_order(a, b),
    };
    scope_order(&a.stem.scopes, &b.stem.scopes).then(kinds)
}
