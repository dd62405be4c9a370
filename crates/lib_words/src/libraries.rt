//! The library that a text is.
ghost use Rattle.std.specs.Prelude.{◌≡◌, ◌<◌, ◌≤◌, length, OnOk};
ghost use Rattle.sdcv_base.specs.Cursors.{rest, text_of};
ghost use Rattle.texts.specs.Rules.{Gives, Reads};
ghost use Rattle.lib_words.specs.Reads.{Fails};
ghost use Rattle.lib_words.specs.Groups as spec;

use crate::blanks::skip_blanks;
use crate::faults::GroupFault;
use crate::groups::{Attribute, CellGroup, Part};
use crate::kinds::{AttributeKind, PartKind, attribute_kind, is, part_kind};
use crate::lists::{Gather, list};
use crate::passes::{enter, pass_arguments, pass_statement};
use crate::runs::take_argument;
use crate::tokens::{expect_mark, is_next, refused, take_name, try_mark};
use crate::values::take_value;
use sdcv_base::{Cursor, Name, Seq};
use std::alloc::Global;
use texts::MOST_NESTED;

/// An argument.
impl Gather for Seq<Name> {
    ghost adds = { λ _. spec.adds_name };

    fn add(&mut self, alloc: Global, c: &mut Cursor<'_>, _: usize) -> Result<(), GroupFault> {
        let argument = take_argument(c)?;
        self.push(Name::new(alloc, argument)?)?;
        Ok(())
    }
}

/// Takes arguments in parentheses.
#[tactic(auto, unfolding(crate::specs::Groups::names_at))]
fn take_names(alloc: Global, c: &mut Cursor<'_>) -> Result<Seq<Name>, GroupFault>
    ensures value { Reads c.old c.new Fails (λ n. n) result spec.names_at }
    ensures text { text_of c.new ≡ text_of c.old }
    ensures shorter { OnOk result (length (rest c.new) < length (rest c.old)) }
{
    expect_mark(c, b'(')?;
    let mut names = Seq::new(alloc);
    list(alloc, c, b')', b',', 0, &mut names)?;
    Ok(names)
}

/// The kind of the attribute that begins here, after its name.
fn attribute_before(c: &Cursor<'_>, name: &[u8]) -> Option<AttributeKind>
    ensures { result ≡ spec.attribute_before name.now (rest c.now) }
{
    if is_next(c, b':') {
        attribute_kind(name)
    } else {
        None
    }
}

/// The kind of the part that begins here, after its name.
fn part_before(c: &Cursor<'_>, name: &[u8]) -> Option<PartKind>
    ensures { result ≡ spec.part_before name.now (rest c.now) }
{
    if is_next(c, b'(') {
        part_kind(name)
    } else {
        None
    }
}

/// Takes `:` and a value.
#[tactic(auto, unfolding(crate::specs::Groups::attribute_at))]
fn take_attribute(
    alloc: Global,
    c: &mut Cursor<'_>,
    kind: AttributeKind,
) -> Result<Attribute, GroupFault>
    ensures value { Reads c.old c.new Fails (λ a. a) result (spec.attribute_at kind) }
    ensures text { text_of c.new ≡ text_of c.old }
    ensures shorter { OnOk result (length (rest c.new) < length (rest c.old)) }
{
    expect_mark(c, b':')?;
    let found = take_value(c)?;
    let value = found.keep(alloc)?;
    Ok(Attribute { kind, value })
}

/// A statement of a part.
impl Gather for Seq<Attribute> {
    ghost adds = { spec.adds_attribute };

    #[tactic(auto, unfolding(crate::specs::Groups::adds_attribute))]
    fn add(&mut self, alloc: Global, c: &mut Cursor<'_>, room: usize) -> Result<(), GroupFault> {
        let name = take_name(c)?;
        if let Some(kind) = attribute_before(c, name) {
            let attribute = take_attribute(alloc, c, kind)?;
            self.push(attribute)?;
            return Ok(());
        }
        pass_statement(alloc, c, room)
    }
}

/// Takes a part after its name, and `None` where no `{` follows its arguments.
#[tactic(auto, unfolding(crate::specs::Groups::part_at))]
fn take_part(
    alloc: Global,
    c: &mut Cursor<'_>,
    kind: PartKind,
    room: usize,
) -> Result<Option<Part>, GroupFault>
    ensures value { Reads c.old c.new Fails (λ p. p) result (spec.part_at kind room) }
    ensures text { text_of c.new ≡ text_of c.old }
    ensures shorter { OnOk result (length (rest c.new) < length (rest c.old)) }
{
    let names = take_names(alloc, c)?;
    if !is_next(c, b'{') {
        return Ok(None);
    }
    enter(c, room, 0)?;
    let mut attributes = Seq::new(alloc);
    list(alloc, c, b'}', b';', room - 1, &mut attributes)?;
    Ok(Some(Part {
        kind,
        names,
        attributes,
    }))
}

/// A statement of a cell.
impl Gather for CellGroup {
    ghost adds = { spec.adds_to_cell };

    #[tactic(auto, unfolding(crate::specs::Groups::adds_to_cell))]
    fn add(&mut self, alloc: Global, c: &mut Cursor<'_>, room: usize) -> Result<(), GroupFault> {
        let name = take_name(c)?;
        if let Some(kind) = attribute_before(c, name) {
            let attribute = take_attribute(alloc, c, kind)?;
            self.attributes.push(attribute)?;
            return Ok(());
        }
        if let Some(kind) = part_before(c, name) {
            if let Some(part) = take_part(alloc, c, kind, room)? {
                self.parts.push(part)?;
            }
            return Ok(());
        }
        pass_statement(alloc, c, room)
    }
}

/// The only one of these names, and `None` exactly where there is none or more than one.
fn only(names: Seq<Name>) -> Option<Name>
    ensures { result ≡ spec.only names }
{
    let mut names = names.into_vec();
    if names.len() == 1 { names.pop() } else { None }
}

/// Takes a cell after the word `cell`, and `None` where no `{` follows its arguments.
#[tactic(auto, unfolding(crate::specs::Groups::cell_at))]
fn take_cell(
    alloc: Global,
    c: &mut Cursor<'_>,
    room: usize,
) -> Result<Option<CellGroup>, GroupFault>
    ensures value { Reads c.old c.new Fails (λ p. p) result (spec.cell_at room) }
    ensures text { text_of c.new ≡ text_of c.old }
    ensures shorter { OnOk result (length (rest c.new) < length (rest c.old)) }
{
    let names = take_names(alloc, c)?;
    if !is_next(c, b'{') {
        return Ok(None);
    }
    let Some(name) = only(names) else {
        return Err(refused(c));
    };
    enter(c, room, 0)?;
    let mut cell = CellGroup {
        name,
        attributes: Seq::new(alloc),
        parts: Seq::new(alloc),
    };
    list(alloc, c, b'}', b';', room - 1, &mut cell)?;
    Ok(Some(cell))
}

/// A statement of a library.
impl Gather for Seq<CellGroup> {
    ghost adds = { spec.adds_cell };

    #[tactic(auto, unfolding(crate::specs::Groups::adds_cell))]
    fn add(&mut self, alloc: Global, c: &mut Cursor<'_>, room: usize) -> Result<(), GroupFault> {
        let name = take_name(c)?;
        if is(name, "cell") && is_next(c, b'(') {
            if let Some(cell) = take_cell(alloc, c, room)? {
                self.push(cell)?;
            }
            return Ok(());
        }
        pass_statement(alloc, c, room)
    }
}

/// Takes the group `library`: at most `room` groups may be open, one inside the other, itself among them.
#[tactic(auto, unfolding(crate::specs::Groups::library_at))]
fn take_library(
    alloc: Global,
    c: &mut Cursor<'_>,
    room: usize,
) -> Result<Seq<CellGroup>, GroupFault>
    ensures value { Reads c.old c.new Fails (λ p. p) result (spec.library_at room) }
    ensures text { text_of c.new ≡ text_of c.old }
{
    let start = refused(c);
    let name = take_name(c)?;
    if !is(name, "library") {
        return Err(start);
    }
    pass_arguments(alloc, c)?;
    enter(c, room, 0)?;
    let mut cells = Seq::new(alloc);
    list(alloc, c, b'}', b';', room - 1, &mut cells)?;
    Ok(cells)
}

/// Passes the end of the text, and one `;` before it.
#[tactic(auto, unfolding(crate::specs::Groups::ended_at))]
fn pass_end(c: &mut Cursor<'_>) -> Result<(), GroupFault>
    ensures value { Gives (Fails (length (text_of c.old))) (λ _. rest c.new) result (spec.ended_at (length (text_of c.old)) (rest c.old)) }
    ensures text { text_of c.new ≡ text_of c.old }
{
    let _ = try_mark(c, b';');
    if c.rest().is_empty() {
        Ok(())
    } else {
        Err(refused(c))
    }
}

/// The cells of the library that the whole text is, as they stand in it. `Syntax` comes exactly where the text is no
/// library, with the place at which it stops being one, and `Deep` exactly where it stops at the `{` of a group that stands
/// inside 256 others.
#[tactic(auto, unfolding(crate::specs::Groups::cells_of, texts::specs::Rules::most_nested))]
pub fn read_cells(alloc: Global, text: &[u8]) -> Result<Seq<CellGroup>, GroupFault>
    ensures { Gives (Fails (length text.now)) (λ cells. cells) result (spec.cells_of text.now) }
{
    let mut c = Cursor::new(text);
    skip_blanks(&mut c);
    let cells = take_library(alloc, &mut c, MOST_NESTED)?;
    pass_end(&mut c)?;
    Ok(cells)
}
