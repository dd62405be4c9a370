//! Ranges, selects, and the parts of an expression.
ghost use Rattle.std.specs.Prelude.{◌≡◌, ◌<◌, ◌≤◌, length, OnOk};
ghost use Rattle.sdcv_base.specs.Cursors.{rest, text_of};
ghost use Rattle.texts.specs.Rules.{Reads};
ghost use Rattle.verilog_words.specs.Reads.{Fails};
ghost use Rattle.verilog_syntax.specs.Parts as spec;

use crate::declarations::{Part, PartDecl, Range, Select};
use sdcv_base::{Cursor, Name};
use std::alloc::Global;
use verilog_words::{
    SyntaxFault, begins_number, expect_mark, refused, take_constant, take_name, take_number,
    try_pass,
};

/// Takes what follows the `[` of a select.
#[tactic(auto, unfolding(crate::specs::Parts::bits_at))]
fn take_bits(c: &mut Cursor<'_>) -> Result<Select, SyntaxFault>
    ensures value { Reads c.old c.new Fails (λ x. x) result spec.bits_at }
    ensures text { text_of c.new ≡ text_of c.old }
    ensures shorter { OnOk result (length (rest c.new) < length (rest c.old)) }
{
    let left = take_number(c)?;
    if !try_pass(c, b':') {
        expect_mark(c, b']')?;
        return Ok(Select::Bit(left));
    }
    let right = take_number(c)?;
    expect_mark(c, b']')?;
    Ok(Select::Slice(left, right))
}

/// Takes a select where one stands.
#[tactic(auto, unfolding(crate::specs::Parts::select_at))]
fn take_select(c: &mut Cursor<'_>) -> Result<Select, SyntaxFault>
    ensures value { Reads c.old c.new Fails (λ x. x) result spec.select_at }
    ensures text { text_of c.new ≡ text_of c.old }
    ensures within { OnOk result (length (rest c.new) ≤ length (rest c.old)) }
{
    if !try_pass(c, b'[') {
        return Ok(Select::All);
    }
    take_bits(c)
}

/// Takes what follows the `[` of a range.
#[tactic(auto, unfolding(crate::specs::Parts::range_at))]
fn take_range(c: &mut Cursor<'_>) -> Result<Range, SyntaxFault>
    ensures value { Reads c.old c.new Fails (λ r. r) result spec.range_at }
    ensures text { text_of c.new ≡ text_of c.old }
    ensures shorter { OnOk result (length (rest c.new) < length (rest c.old)) }
{
    let msb = take_number(c)?;
    expect_mark(c, b':')?;
    let lsb = take_number(c)?;
    expect_mark(c, b']')?;
    Ok(Range { msb, lsb })
}

/// Takes a range where one stands.
#[tactic(auto, unfolding(crate::specs::Parts::range_or_none))]
pub fn range_or_none(c: &mut Cursor<'_>) -> Result<Option<Range>, SyntaxFault>
    ensures value { Reads c.old c.new Fails (λ r. r) result spec.range_or_none }
    ensures text { text_of c.new ≡ text_of c.old }
    ensures within { OnOk result (length (rest c.new) ≤ length (rest c.old)) }
{
    if !try_pass(c, b'[') {
        return Ok(None);
    }
    let range = take_range(c)?;
    Ok(Some(range))
}

/// Takes a constant, where one may stand.
#[tactic(auto, unfolding(crate::specs::Parts::bits_part_at))]
fn take_bits_part(
    alloc: Global,
    c: &mut Cursor<'_>,
    constants: bool,
) -> Result<PartDecl, SyntaxFault>
    ensures value { Reads c.old c.new Fails (λ p. p) result (spec.bits_part_at constants) }
    ensures text { text_of c.new ≡ text_of c.old }
    ensures shorter { OnOk result (length (rest c.new) < length (rest c.old)) }
{
    let offset = c.place();
    if !constants {
        return Err(refused(c));
    }
    let bits = take_constant(alloc, c)?;
    Ok(PartDecl {
        offset,
        part: Part::Bits(bits),
    })
}

/// Takes a name and its select.
#[tactic(auto, unfolding(crate::specs::Parts::net_part_at))]
fn take_net_part(alloc: Global, c: &mut Cursor<'_>) -> Result<PartDecl, SyntaxFault>
    ensures value { Reads c.old c.new Fails (λ p. p) result spec.net_part_at }
    ensures text { text_of c.new ≡ text_of c.old }
    ensures shorter { OnOk result (length (rest c.new) < length (rest c.old)) }
{
    let offset = c.place();
    let spelled = take_name(c)?;
    let select = take_select(c)?;
    let name = Name::new(alloc, spelled)?;
    Ok(PartDecl {
        offset,
        part: Part::Net { name, select },
    })
}

/// Takes a part of an expression, which may be a constant or not.
#[tactic(auto, unfolding(crate::specs::Parts::part_at))]
pub fn take_part(
    alloc: Global,
    c: &mut Cursor<'_>,
    constants: bool,
) -> Result<PartDecl, SyntaxFault>
    ensures value { Reads c.old c.new Fails (λ p. p) result (spec.part_at constants) }
    ensures text { text_of c.new ≡ text_of c.old }
    ensures shorter { OnOk result (length (rest c.new) < length (rest c.old)) }
{
    if begins_number(c) {
        take_bits_part(alloc, c, constants)
    } else {
        take_net_part(alloc, c)
    }
}
