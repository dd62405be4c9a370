//! Statements that are passed over.
ghost use Rattle.std.specs.Prelude.{◌≡◌, ◌<◌, ◌≤◌, length, OnOk};
ghost use Rattle.sdcv_base.specs.Cursors.{rest, text_of};
ghost use Rattle.texts.specs.Rules.{Gives, Reads};
ghost use Rattle.lib_words.specs.Reads.{Fails};
ghost use Rattle.lib_words.specs.Passes as spec;

use crate::faults::GroupFault;
use crate::lists::{Gather, list};
use crate::runs::take_argument;
use crate::tokens::{deep, expect_mark, is_next, take_name, try_mark};
use crate::values::take_value;
use sdcv_base::Cursor;
use std::alloc::Global;

/// Nothing is kept.
#[derive(Clone, Copy)]
pub struct Passed;

impl Gather for Passed {
    ghost adds = { λ _. spec.passes_argument };

    fn add(&mut self, _: Global, c: &mut Cursor<'_>, _: usize) -> Result<(), GroupFault> {
        take_argument(c)?;
        Ok(())
    }
}

/// Passes arguments in parentheses.
#[tactic(auto, unfolding(crate::specs::Passes::after_arguments))]
pub fn pass_arguments(alloc: Global, c: &mut Cursor<'_>) -> Result<(), GroupFault>
    ensures value { Gives (Fails (length (text_of c.old))) (λ _. rest c.new) result (spec.after_arguments (length (text_of c.old)) (rest c.old)) }
    ensures text { text_of c.new ≡ text_of c.old }
    ensures shorter { OnOk result (length (rest c.new) < length (rest c.old)) }
{
    expect_mark(c, b'(')?;
    list(alloc, c, b')', b',', 0, &mut Passed)
}

/// Passes the `{` of a group, where `opened` groups are open of the `room` that may be.
#[tactic(auto, unfolding(crate::specs::Passes::enter_at))]
pub fn enter(c: &mut Cursor<'_>, room: usize, opened: usize) -> Result<(), GroupFault>
    ensures value { Gives (Fails (length (text_of c.old))) (λ _. rest c.new) result (spec.enter_at room opened (length (text_of c.old)) (rest c.old)) }
    ensures text { text_of c.new ≡ text_of c.old }
    ensures shorter { OnOk result (length (rest c.new) < length (rest c.old)) }
    ensures below { OnOk result (opened < room) }
{
    if room <= opened {
        return Err(deep(c));
    }
    expect_mark(c, b'{')
}

/// How many groups are open after a place where a `{` may stand.
#[tactic(auto, unfolding(crate::specs::Passes::opened_at))]
fn pass_opening(c: &mut Cursor<'_>, room: usize, opened: usize) -> Result<usize, GroupFault>
    ensures value { Reads c.old c.new Fails (λ n. n) result (spec.opened_at room opened) }
    ensures text { text_of c.new ≡ text_of c.old }
    ensures within { OnOk result (length (rest c.new) ≤ length (rest c.old)) }
{
    if !is_next(c, b'{') {
        return Ok(opened);
    }
    enter(c, room, opened)?;
    Ok(opened + 1)
}

/// Passes what follows a statement's name, up to the `{` of a group. Tells how many groups are open then.
#[tactic(auto, unfolding(crate::specs::Passes::tail_at))]
fn pass_tail(
    alloc: Global,
    c: &mut Cursor<'_>,
    room: usize,
    opened: usize,
) -> Result<usize, GroupFault>
    ensures value { Reads c.old c.new Fails (λ n. n) result (spec.tail_at room opened) }
    ensures text { text_of c.new ≡ text_of c.old }
    ensures shorter { OnOk result (length (rest c.new) < length (rest c.old)) }
{
    if try_mark(c, b':') {
        take_value(c)?;
        return Ok(opened);
    }
    pass_arguments(alloc, c)?;
    pass_opening(c, room, opened)
}

/// Passes a `}` or a `;`, or a statement up to the `{` of a group. Tells how many groups are open then.
#[tactic(auto, unfolding(crate::specs::Passes::step_at))]
fn pass_step(
    alloc: Global,
    c: &mut Cursor<'_>,
    room: usize,
    opened: usize,
) -> Result<usize, GroupFault>
    requires { 0 < opened }
    ensures value { Reads c.old c.new Fails (λ n. n) result (spec.step_at room opened) }
    ensures text { text_of c.new ≡ text_of c.old }
    ensures shorter { OnOk result (length (rest c.new) < length (rest c.old)) }
{
    if try_mark(c, b'}') {
        return Ok(opened - 1);
    }
    if try_mark(c, b';') {
        return Ok(opened);
    }
    take_name(c)?;
    pass_tail(alloc, c, room, opened)
}

/// Passes what follows a statement's name, with all groups in it: at most `room` may be open, one inside the other.
pub fn pass_statement(alloc: Global, c: &mut Cursor<'_>, room: usize) -> Result<(), GroupFault>
    ensures value { Gives (Fails (length (text_of c.old))) (λ _. rest c.new) result (spec.passed_at room (length (text_of c.old)) (rest c.old)) }
    ensures text { text_of c.new ≡ text_of c.old }
    ensures shorter { OnOk result (length (rest c.new) < length (rest c.old)) }
{
    let mut opened = pass_tail(alloc, c, room, 0)?;
    'steps: while 0 < opened {
        opened = pass_step(alloc, c, room, opened)?;
    }
    Ok(())
}
