//! Lists of objects.
ghost use Rattle.std.specs.Prelude.{◌≡◌, ◌++◌, OnOk, codes, map};
ghost use Rattle.mend_lines.specs.Lines as spec;

use crate::bundles::{bundle_end, is_one_bundle};
use crate::joins::{push_between, push_next};
use crate::words::{class_word, hier_word};
use script_types::{Class, Object, Query};
use sdcv_base::Seq;
use std::alloc::AllocError;

fn pattern_of(object: &Object) -> &[u8]
    ensures { result.now ≡ spec.pattern_of object.now }
{
    match object {
        Object::Named(query) => query.pattern.as_bytes(),
        _ => &[],
    }
}

fn push_all(text: &mut Vec<u8>, objects: &[Object]) -> Result<(), AllocError>
    ensures { OnOk result (text.new.items ≡ text.old.items ++ spec.joined_by (codes " ") (map spec.pattern_of objects.now)) }
{
    for place in 0..objects.len() {
        push_next(text, b" ", place == 0, pattern_of(&objects[place]))?;
    }
    Ok(())
}

fn push_patterns(text: &mut Vec<u8>, objects: &[Object]) -> Result<(), AllocError>
    ensures { OnOk result (text.new.items ≡ text.old.items ++ spec.patterns_text objects.now) }
{
    text.extend_from_slice(b"{")?;
    push_all(text, objects)?;
    text.extend_from_slice(b"}")
}

fn push_asked(text: &mut Vec<u8>, query: &Query, objects: &[Object]) -> Result<(), AllocError>
    ensures { OnOk result (text.new.items ≡ text.old.items ++ spec.asked_text query.now objects.now) }
{
    text.extend_from_slice(b"[")?;
    text.extend_from_slice(class_word(query.class).as_bytes())?;
    text.extend_from_slice(hier_word(query.hier).as_bytes())?;
    text.extend_from_slice(b" ")?;
    push_patterns(text, objects)?;
    text.extend_from_slice(b"]")
}

fn push_query(text: &mut Vec<u8>, query: &Query, objects: &[Object]) -> Result<(), AllocError>
    ensures { OnOk result (text.new.items ≡ text.old.items ++ spec.query_text query.now objects.now) }
{
    match query.class {
        Class::Any => push_patterns(text, objects),
        _ => push_asked(text, query, objects),
    }
}

// Objects that go together, of which this is the first one.
fn push_bundle(text: &mut Vec<u8>, first: &Object, objects: &[Object]) -> Result<(), AllocError>
    ensures { OnOk result (text.new.items ≡ text.old.items ++ spec.bundle_by first.now objects.now) }
{
    match first {
        Object::Named(query) => push_query(text, query, objects),
        Object::AllInputs => text.extend_from_slice(b"[all_inputs]"),
        Object::AllOutputs => text.extend_from_slice(b"[all_outputs]"),
        Object::AllRegisters => text.extend_from_slice(b"[all_registers]"),
        Object::AllClocks => text.extend_from_slice(b"[all_clocks]"),
    }
}

fn push_bundles(text: &mut Vec<u8>, objects: &Seq<Object>) -> Result<(), AllocError>
    ensures { OnOk result (text.new.items ≡ text.old.items ++ spec.several_text (spec.bundled objects.now)) }
{
    let mut from = 0;
    while from < objects.len() {
        let end = bundle_end(objects, from);
        push_between(text, b" ", from == 0)?;
        push_bundle(text, objects.item(from), &objects.as_slice()[from..end])?;
        from = end;
    }
    Ok(())
}

fn push_list(text: &mut Vec<u8>, objects: &Seq<Object>) -> Result<(), AllocError>
    ensures { OnOk result (text.new.items ≡ text.old.items ++ spec.list_text objects.now) }
{
    if is_one_bundle(objects) {
        push_bundles(text, objects)
    } else {
        push_several(text, objects)
    }
}

fn push_several(text: &mut Vec<u8>, objects: &Seq<Object>) -> Result<(), AllocError>
    ensures { OnOk result (text.new.items ≡ text.old.items ++ (codes "[list " ++ (spec.several_text (spec.bundled objects.now) ++ codes "]"))) }
{
    text.extend_from_slice(b"[list ")?;
    push_bundles(text, objects)?;
    text.extend_from_slice(b"]")
}

fn push_one(text: &mut Vec<u8>, objects: &Seq<Object>) -> Result<(), AllocError>
    ensures { OnOk result (text.new.items ≡ text.old.items ++ spec.through_one objects.now) }
{
    text.extend_from_slice(b" -through ")?;
    push_list(text, objects)
}

/// Appends the option and the list of each `-through` of an exception, in order.
pub(crate) fn push_through(text: &mut Vec<u8>, lists: &Seq<Seq<Object>>) -> Result<(), AllocError>
    ensures { OnOk result (text.new.items ≡ text.old.items ++ spec.through_text lists.now) }
{
    for place in 0..lists.len() {
        push_one(text, lists.item(place))?;
    }
    Ok(())
}
