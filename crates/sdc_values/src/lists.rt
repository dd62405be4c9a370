//! Lists of patterns, as a text where objects are wanted is read.
ghost use Rattle.std.specs.Prelude.{◌≡◌, ◌<◌, ◌≤◌, ◌==◌, length, Some, None, IfOk, OnOk, if◌then◌else◌};
ghost use Rattle.std.specs.Char.{is_ascii_whitespace};
ghost use Rattle.std.specs.List.{prefix_len};
ghost use Rattle.sdcv_base.specs.Cursors.{rest, text_of};
ghost use Rattle.texts.specs.Rules.{Gives};
ghost use Rattle.sdc_values.specs.Told.{Fails};
ghost use Rattle.sdc_values.specs.Lists as spec;

use crate::values::{Said, Value};
use script_types::{Class, Object, Query, SdcFault, copy_objects};
use sdcv_base::{Cursor, Name, Seq};
use std::alloc::{AllocError, Global};
use texts::byte_at;

/// Whether the innermost open brace opened a level.
fn is_level(braces: &[bool]) -> bool
    ensures { result ≡ spec.is_level braces.now }
{
    braces.last().copied().unwrap_or(false)
}

fn closes_level(braces: &[bool], text: &[u8]) -> bool
    ensures { result ≡ spec.closes_level braces.now text.now }
{
    byte_at(text, 0) == b'}' && is_level(braces)
}

/// Whether an element or a level is over here.
fn is_over(braces: &[bool], text: &[u8]) -> bool
    ensures { result ≡ spec.is_over braces.now text.now }
{
    text.is_empty() || byte_at(text, 0).is_ascii_whitespace() || closes_level(braces, text)
}

/// Leaves the innermost brace.
fn leave(braces: &mut Vec<bool>)
    ensures { braces.new.items ≡ spec.outer braces.old.items }
{
    braces.truncate(braces.len().saturating_sub(1));
}

/// Counts a byte of an element where it is a brace.
#[tactic(auto, unfolding(crate::specs::Lists::after_byte))]
fn count_byte(braces: &mut Vec<bool>, byte: u8) -> Result<(), AllocError>
    ensures { OnOk result (braces.new.items ≡ spec.after_byte braces.old.items byte) }
{
    if braces.is_empty() {
        return Ok(());
    }
    if byte == b'{' {
        braces.push(false)?;
        return Ok(());
    }
    if byte == b'}' {
        leave(braces);
    }
    Ok(())
}

/// Takes a byte of an element.
#[tactic(auto, unfolding(crate::specs::Lists::byte_of))]
fn take_byte(c: &mut Cursor<'_>, braces: &mut Vec<bool>) -> Result<u8, AllocError>
    requires { 0 < length (rest c.old) }
    ensures value { IfOk result (λ byte. ((byte, braces.new.items), rest c.new) ≡ spec.byte_of braces.old.items (rest c.old)) }
    ensures shorter { OnOk result (length (rest c.new) < length (rest c.old)) }
{
    let text = c.rest();
    let byte = byte_at(text, 0);
    if byte == b'\\' && 1 < text.len() {
        c.skip(2);
        return Ok(byte_at(text, 1));
    }
    count_byte(braces, byte)?;
    c.bump();
    Ok(byte)
}

/// Takes the bytes of an element up to where it is over, and adds them to those found before.
fn more_bytes(
    c: &mut Cursor<'_>,
    braces: &mut Vec<bool>,
    found: &mut Vec<u8>,
) -> Result<(), AllocError>
    ensures value { OnOk result (((found.new.items, braces.new.items), rest c.new) ≡ spec.element_from (length (rest c.old)) braces.old.items
        found.old.items (rest c.old)) }
    ensures within { OnOk result (length (rest c.new) ≤ length (rest c.old)) }
{
    'bytes: while !is_over(braces, c.rest()) {
        let byte = take_byte(c, braces)?;
        found.push(byte)?;
    }
    Ok(())
}

/// Takes an element.
#[tactic(auto, unfolding(crate::specs::Lists::element_at))]
fn take_element(
    alloc: Global,
    c: &mut Cursor<'_>,
    braces: &mut Vec<bool>,
) -> Result<Name, AllocError>
    requires { 0 < length (rest c.old) }
    ensures value { IfOk result (λ name. ((name, braces.new.items), rest c.new) ≡ spec.element_at braces.old.items (rest c.old)) }
    ensures shorter { OnOk result (length (rest c.new) < length (rest c.old)) }
{
    let mut bytes = Vec::new(alloc);
    let first = take_byte(c, braces)?;
    bytes.push(first)?;
    more_bytes(c, braces, &mut bytes)?;
    Ok(Name::from_vec(bytes))
}

/// Takes a brace or an element, and tells whether nothing stands directly after a closing brace.
#[tactic(auto, unfolding(crate::specs::Lists::item_at))]
fn take_item(
    alloc: Global,
    c: &mut Cursor<'_>,
    class: Class,
    hier: bool,
    braces: &mut Vec<bool>,
    found: &mut Seq<Object>,
) -> Result<bool, AllocError>
    requires { 0 < length (rest c.old) }
    ensures value { IfOk result (λ fits. spec.item_at class hier braces.old.items found.old (rest c.old) ≡
        (if fits then Some ((braces.new.items, found.new), rest c.new) else None)) }
    ensures shorter { OnOk result (length (rest c.new) < length (rest c.old)) }
{
    if byte_at(c.rest(), 0) == b'{' {
        braces.push(true)?;
        c.bump();
        return Ok(true);
    }
    if closes_level(braces, c.rest()) {
        leave(braces);
        c.bump();
        return Ok(is_over(braces, c.rest()));
    }
    let pattern = take_element(alloc, c, braces)?;
    found.push(Object::Named(Query {
        class,
        hier,
        pattern,
    }))?;
    Ok(true)
}

/// Whether no brace is open.
fn is_closed(braces: &[bool]) -> bool
    ensures { result ≡ (length braces.now == 0) }
{
    braces.is_empty()
}

fn white_len(text: &[u8]) -> usize
    ensures value { result ≡ prefix_len is_ascii_whitespace text.now }
    ensures within { result ≤ length text.now }
{
    text.iter()
        .take_while(|byte| byte.is_ascii_whitespace())
        .count()
}

fn pass_white(c: &mut Cursor<'_>)
    ensures rest { rest c.new ≡ spec.after_white (rest c.old) }
    ensures within { length (rest c.new) ≤ length (rest c.old) }
{
    let len = white_len(c.rest());
    c.skip(len);
}

/// The objects that the patterns of a text name; `None` where a brace is not closed, or something stands directly after one.
fn read_list(
    alloc: Global,
    class: Class,
    hier: bool,
    text: &[u8],
) -> Result<Option<Seq<Object>>, AllocError>
    ensures { IfOk result (λ objects. objects ≡ spec.list_of class hier text.now) }
{
    let mut c = Cursor::new(text);
    let mut braces = Vec::new(alloc);
    let mut found = Seq::new(alloc);
    'items: loop {
        pass_white(&mut c);
        if c.rest().is_empty() {
            break;
        }
        let fits = take_item(alloc, &mut c, class, hier, &mut braces, &mut found)?;
        if !fits {
            return Ok(None);
        }
    }
    if is_closed(&braces) {
        return Ok(Some(found));
    }
    Ok(None)
}

/// The objects that a text names as a list of patterns of a class, where it is the word at this offset.
#[tactic(auto, unfolding(crate::specs::Lists::list_at))]
pub fn list_at(
    alloc: Global,
    offset: usize,
    class: Class,
    hier: bool,
    text: &[u8],
) -> Result<Seq<Object>, SdcFault>
    ensures { Gives Fails (λ objects. objects) result (spec.list_at offset class hier text.now) }
{
    match read_list(alloc, class, hier, text)? {
        Some(objects) => Ok(objects),
        None => Err(SdcFault::Syntax(offset)),
    }
}

/// The objects that a word says: those of a list of objects, or the patterns of a text, of any class. `Syntax` comes at the
/// word's offset where a brace of the text is not closed, or something stands directly after one.
#[tactic(auto, unfolding(crate::specs::Lists::objects_of))]
pub fn objects_of(alloc: Global, said: &Said<'_>) -> Result<Seq<Object>, SdcFault>
    ensures { Gives Fails (λ objects. objects) result (spec.objects_of said.now) }
{
    match said.value.get() {
        Value::Text(text) => list_at(alloc, said.offset, Class::Any, false, text.as_bytes()),
        Value::Objects(objects) => Ok(copy_objects(alloc, objects.as_slice())?),
    }
}
