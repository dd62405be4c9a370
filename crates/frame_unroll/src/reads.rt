//! The literals by which nets and pins are read.
ghost use Rattle.std.specs.Prelude.{◌≡◌, ◌<◌, ◌≤◌, ◌+◌, ◌-◌, length};
ghost use Rattle.query_model.specs.Keys.{flipped};
ghost use Rattle.query_model.specs.Reads.{read, read_base, read_late, read_pin};
ghost use Rattle.frame_unroll.specs.Reading.{IsSubject};

use crate::drivers::base_lit;
use crate::starts::is_start_net;
use crate::subjects::Subject;
use net_model::{PinRef, is_held};
use query_model::{Key, KeyLit};

fn flip_if(lit: KeyLit, flip: bool) -> KeyLit
    ensures { result ≡ flipped flip lit }
{
    if flip {
        KeyLit {
            key: lit.key,
            positive: !lit.positive,
        }
    } else {
        lit
    }
}

/// The literal of a moved net, which has the literal `base` in layer 0, in a layer that doesn't hold it.
fn late_net_lit(subject: &Subject, base: KeyLit, key: Key) -> KeyLit
    requires subject { IsSubject subject.now }
    requires net { key.point < subject.now.design.now.nets }
    requires layer { 0 < key.layer }
    requires base { base ≡ read_base subject.now.design.now key.cycle key.point }
    ensures { result ≡ read_late subject.now.design.now subject.now.claim.now key.cycle (key.layer - 1) key.rail key.point }
{
    let is_start = is_start_net(subject.design, subject.claim, key.point);
    if key.layer == 1 && is_start && !subject.claim.hazard {
        return flip_if(base, true);
    }
    KeyLit {
        key,
        positive: true,
    }
}

/// The literal that stands for the net of a key in its cycle, layer and rail: the key's own, or that of a lower layer.
///
/// A net that the late start doesn't move is read in layer 0, and one whose driver pin is in the set of the layer in the
/// layer before. Where hazards don't count, a net of the start is the complement of what it is in layer 0.
pub fn net_lit(subject: &Subject, key: Key) -> KeyLit
    requires subject { IsSubject subject.now }
    requires net { key.point < subject.now.design.now.nets }
    requires layer { key.layer ≤ length subject.now.claim.now.through + 1 }
    ensures { result ≡ read subject.now.design.now subject.now.claim.now subject.now.moved key.cycle key.layer key.rail key.point }
{
    let net = key.point;
    let base = base_lit(subject.design, subject.tables.drivers(), key.cycle, net);
    if key.layer == 0 || !subject.moved.has(key.layer - 1, net) {
        return flip_if(base, key.rail == 1);
    }
    if is_held(&subject.claim.through, key.layer - 1, PinRef::Net(net)) {
        let before = Key {
            layer: key.layer - 1,
            ..key
        };
        return net_lit(subject, before);
    }
    late_net_lit(subject, base, key)
}

/// The literal that a pin on the net of a key reads: a pin in the set of the layer what it reads in the layer before.
pub fn pin_lit(subject: &Subject, pin: PinRef, key: Key) -> KeyLit
    requires subject { IsSubject subject.now }
    requires net { key.point < subject.now.design.now.nets }
    requires layer { key.layer ≤ length subject.now.claim.now.through + 1 }
    ensures { result ≡ read_pin subject.now.design.now subject.now.claim.now subject.now.moved key.cycle key.layer key.rail pin key.point }
{
    if key.layer > 0 && is_held(&subject.claim.through, key.layer - 1, pin) {
        let before = Key {
            layer: key.layer - 1,
            ..key
        };
        return pin_lit(subject, pin, before);
    }
    net_lit(subject, key)
}
