//! Lists of items with commas between them, and rows of items that follow one another.
ghost use Rattle.std.specs.Prelude.{◌≡◌, ◌<◌, ◌≤◌, List, [], ℕ, Bool, length, IfOk, OnOk};
ghost use Rattle.sdcv_base.specs.Cursors.{rest, text_of};
ghost use Rattle.texts.specs.Rules.{Reads};
ghost use Rattle.verilog_words.specs.Reads.{Fails, Rule};
ghost use Rattle.verilog_syntax.specs.Lists as spec;

use sdcv_base::{Cursor, Seq};
use std::alloc::{AllocError, Global};
use verilog_words::{SyntaxFault, expect_mark, try_pass};

/// An empty list with room for one item: a netlist has many lists, and most of them are of one.
pub fn room_for_one<T>(alloc: Global) -> Result<Seq<T>, AllocError>
    ensures { IfOk result (λ list. list ≡ []) }
{
    Ok(Seq::from_vec(Vec::with_capacity(alloc, 1)?))
}

/// The same list, without room for more.
pub fn fitted<T>(list: Seq<T>) -> Seq<T>
    ensures { result ≡ list }
{
    let mut items = list.into_vec();
    items.shrink_to_fit();
    Seq::from_vec(items)
}

/// What is gathered from the items of a list or row.
pub trait Gather: Drop {
    /// What an item adds to what was gathered before it.
    ghost adds: { Self → Rule Self };

    fn add(&mut self, alloc: Global, c: &mut Cursor<'_>) -> Result<(), SyntaxFault>
        ensures value { Reads c.old c.new Fails (λ _. self.new) result (adds self.old) }
        ensures text { text_of c.new ≡ text_of c.old }
        ensures shorter { OnOk result (length (rest c.new) < length (rest c.old)) };
}

/// Gathers one item or more with a comma between two, up to the closing mark, which is passed.
pub fn take_list<G: Gather>(
    alloc: Global,
    c: &mut Cursor<'_>,
    close: u8,
    found: &mut G,
) -> Result<(), SyntaxFault>
    requires { 0 < close }
    ensures value { Reads c.old c.new Fails (λ _. found.new) result (spec.list_at close G.adds found.old) }
    ensures text { text_of c.new ≡ text_of c.old }
    ensures shorter { OnOk result (length (rest c.new) < length (rest c.old)) }
{
    'items: loop {
        found.add(alloc, c)?;
        if try_pass(c, close) {
            return Ok(());
        }
        expect_mark(c, b',')?;
    }
}

/// What is gathered from the items of a row.
pub trait Row: Gather {
    /// The row ends before what is left.
    ghost ends: { List ℕ → Bool };

    fn has_ended(c: &Cursor<'_>) -> bool
        ensures { result ≡ ends (rest c.now) };
}

/// Gathers the items up to where their row ends.
pub fn take_row<R: Row>(alloc: Global, c: &mut Cursor<'_>, found: &mut R) -> Result<(), SyntaxFault>
    ensures value { Reads c.old c.new Fails (λ _. found.new) result (spec.row_at R.ends R.adds found.old) }
    ensures text { text_of c.new ≡ text_of c.old }
    ensures within { OnOk result (length (rest c.new) ≤ length (rest c.old)) }
{
    'items: while !R::has_ended(c) {
        found.add(alloc, c)?;
    }
    Ok(())
}
