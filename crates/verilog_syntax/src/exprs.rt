//! Expressions.
ghost use Rattle.std.specs.Prelude.{◌≡◌, ◌<◌, ◌≤◌, length, OnOk};
ghost use Rattle.sdcv_base.specs.Cursors.{rest, text_of};
ghost use Rattle.texts.specs.Rules.{Reads};
ghost use Rattle.verilog_words.specs.Reads.{Fails};
ghost use Rattle.verilog_syntax.specs.Exprs as spec;

use crate::declarations::{PartDecl, TermDecl};
use crate::lists::room_for_one;
use crate::parts::take_part;
use sdcv_base::{Cursor, Seq};
use std::alloc::Global;
use texts::MOST_NESTED;
use verilog_words::{SyntaxFault, bump, deep, expect_mark, is_next, try_pass};

/// Passes each `}` that comes next and closes one of so many open braces, and tells how many are open then.
fn close_all(c: &mut Cursor<'_>, opened: usize) -> usize
    ensures value { (result, rest c.new) ≡ spec.closed_at opened (rest c.old) }
    ensures text { text_of c.new ≡ text_of c.old }
    ensures within { length (rest c.new) ≤ length (rest c.old) }
{
    let mut left = opened;
    'closing: while 0 < left && try_pass(c, b'}') {
        left -= 1;
    }
    left
}

/// Takes an expression with constants or without, in which at most `room` braces are open at once, and adds its parts to those
/// found before. Of the braces only how many are open is kept: an expression is the flat list of its parts.
fn take_parts(
    alloc: Global,
    c: &mut Cursor<'_>,
    constants: bool,
    room: usize,
    found: &mut Seq<PartDecl>,
) -> Result<(), SyntaxFault>
    ensures value { Reads c.old c.new Fails (λ _. found.new) result (spec.adds_expr constants room found.old) }
    ensures text { text_of c.new ≡ text_of c.old }
    ensures shorter { OnOk result (length (rest c.new) < length (rest c.old)) }
{
    let mut opened = 0;
    'parts: loop {
        if is_next(c, b'{') {
            if opened == room {
                return Err(deep(c));
            }
            bump(c);
            opened += 1;
            continue;
        }
        let part = take_part(alloc, c, constants)?;
        found.push(part)?;
        opened = close_all(c, opened);
        if opened == 0 {
            return Ok(());
        }
        expect_mark(c, b',')?;
    }
}

/// Takes an expression, in which no brace stands inside more others than may be open at once. A target is one without constants.
#[tactic(auto, unfolding(crate::specs::Exprs::expr_at, texts::specs::Rules::most_nested))]
pub fn take_expr(
    alloc: Global,
    c: &mut Cursor<'_>,
    constants: bool,
) -> Result<TermDecl, SyntaxFault>
    ensures value { Reads c.old c.new Fails (λ t. t) result (spec.expr_at constants) }
    ensures text { text_of c.new ≡ text_of c.old }
    ensures shorter { OnOk result (length (rest c.new) < length (rest c.old)) }
{
    let offset = c.place();
    let mut parts = room_for_one(alloc)?;
    take_parts(alloc, c, constants, MOST_NESTED, &mut parts)?;
    Ok(TermDecl { offset, parts })
}
