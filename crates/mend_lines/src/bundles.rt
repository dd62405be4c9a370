//! Objects that go together in a list, as their neighbours are asked for in the same way.
ghost use Rattle.std.specs.Prelude.{◌≡◌, ◌-◌, ◌==◌, ◌<◌, ◌≤◌, ◌∷◌, length, take, drop};
ghost use Rattle.mend_lines.specs.Lines.{bundled, go_together};

use script_notices::is_asked;
use script_types::Object;
use sdcv_base::Seq;

fn go_together(a: &Object, b: &Object) -> bool
    ensures { result ≡ go_together a.now b.now }
{
    match (a, b) {
        (Object::Named(a), Object::Named(b)) => is_asked(a, b),
        _ => false,
    }
}

/// The place after the objects that go together from a place on.
pub(crate) fn bundle_end(objects: &Seq<Object>, from: usize) -> usize
    requires { from < length objects.now }
    ensures more { from < result }
    ensures within { result ≤ length objects.now }
    ensures bundle { bundled (drop from objects.now) ≡ take (result - from) (drop from objects.now) ∷ bundled (drop result objects.now) }
{
    let count = objects.len();
    for place in from + 1..count {
        if !go_together(objects.item(place - 1), objects.item(place)) {
            return place;
        }
    }
    count
}

/// Whether all objects of a list go together.
pub(crate) fn is_one_bundle(objects: &Seq<Object>) -> bool
    ensures { result ≡ (length (bundled objects.now) == 1) }
{
    objects.len() != 0 && bundle_end(objects, 0) == objects.len()
}
