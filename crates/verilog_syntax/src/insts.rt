//! Instances and their connections.
ghost use Rattle.std.specs.Prelude.{◌≡◌, ◌<◌, length, OnOk};
ghost use Rattle.sdcv_base.specs.Cursors.{rest, text_of};
ghost use Rattle.texts.specs.Rules.{Reads};
ghost use Rattle.verilog_words.specs.Reads.{Fails};
ghost use Rattle.verilog_syntax.specs.Items as spec;

use crate::declarations::{ConnDecl, InstDecl, ItemDecl, PartDecl};
use crate::exprs::take_expr;
use crate::lists::{Gather, fitted, room_for_one, take_list};
use sdcv_base::{Cursor, Name, Seq};
use std::alloc::Global;
use verilog_words::{SyntaxFault, expect_mark, expect_open, take_name, try_pass};

/// Takes what follows the `(` of a connection: an expression or none, and `)`.
#[tactic(auto, unfolding(crate::specs::Items::parts_or_none))]
fn parts_or_none(alloc: Global, c: &mut Cursor<'_>) -> Result<Option<Seq<PartDecl>>, SyntaxFault>
    ensures value { Reads c.old c.new Fails (λ p. p) result spec.parts_or_none }
    ensures text { text_of c.new ≡ text_of c.old }
    ensures shorter { OnOk result (length (rest c.new) < length (rest c.old)) }
{
    if try_pass(c, b')') {
        return Ok(None);
    }
    let value = take_expr(alloc, c, true)?;
    expect_mark(c, b')')?;
    Ok(Some(value.parts))
}

/// A connection.
impl Gather for Seq<ConnDecl> {
    ghost adds = { spec.adds_conn };

    #[tactic(auto, unfolding(crate::specs::Items::adds_conn))]
    fn add(&mut self, alloc: Global, c: &mut Cursor<'_>) -> Result<(), SyntaxFault> {
        let offset = c.place();
        expect_mark(c, b'.')?;
        let pin = take_name(c)?;
        expect_open(c)?;
        let parts = parts_or_none(alloc, c)?;
        let pin = Name::new(alloc, pin)?;
        self.push(ConnDecl { offset, pin, parts })?;
        Ok(())
    }
}

/// Takes connections after their `(`, none or more.
#[tactic(auto, unfolding(crate::specs::Items::conns_at))]
fn take_conns(alloc: Global, c: &mut Cursor<'_>) -> Result<Seq<ConnDecl>, SyntaxFault>
    ensures value { Reads c.old c.new Fails (λ l. l) result spec.conns_at }
    ensures text { text_of c.new ≡ text_of c.old }
    ensures shorter { OnOk result (length (rest c.new) < length (rest c.old)) }
{
    let mut conns = Seq::new(alloc);
    if try_pass(c, b')') {
        return Ok(conns);
    }
    take_list(alloc, c, b')', &mut conns)?;
    Ok(fitted(conns))
}

/// An instance.
impl Gather for Seq<InstDecl> {
    ghost adds = { spec.adds_inst };

    #[tactic(auto, unfolding(crate::specs::Items::adds_inst))]
    fn add(&mut self, alloc: Global, c: &mut Cursor<'_>) -> Result<(), SyntaxFault> {
        let name = take_name(c)?;
        expect_open(c)?;
        let conns = take_conns(alloc, c)?;
        let name = Name::new(alloc, name)?;
        self.push(InstDecl { name, conns })?;
        Ok(())
    }
}

/// Takes the name of a cell or module, and its instances.
#[tactic(auto, unfolding(crate::specs::Items::insts_at))]
pub fn take_insts(alloc: Global, c: &mut Cursor<'_>) -> Result<ItemDecl, SyntaxFault>
    ensures value { Reads c.old c.new Fails (λ i. i) result spec.insts_at }
    ensures text { text_of c.new ≡ text_of c.old }
    ensures shorter { OnOk result (length (rest c.new) < length (rest c.old)) }
{
    let cell = take_name(c)?;
    let mut found = room_for_one(alloc)?;
    take_list(alloc, c, b';', &mut found)?;
    let cell = Name::new(alloc, cell)?;
    Ok(ItemDecl::Insts { cell, list: found })
}
