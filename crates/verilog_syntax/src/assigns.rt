//! Assignments.
ghost use Rattle.std.specs.Prelude.{◌≡◌, ◌<◌, length, OnOk};
ghost use Rattle.sdcv_base.specs.Cursors.{rest, text_of};
ghost use Rattle.texts.specs.Rules.{Reads};
ghost use Rattle.verilog_words.specs.Reads.{Fails};
ghost use Rattle.verilog_syntax.specs.Items as spec;

use crate::declarations::{AssignDecl, ItemDecl};
use crate::exprs::take_expr;
use crate::lists::{Gather, room_for_one, take_list};
use sdcv_base::{Cursor, Seq};
use std::alloc::Global;
use verilog_words::{SyntaxFault, expect_mark};

/// An assignment.
impl Gather for Seq<AssignDecl> {
    ghost adds = { spec.adds_assign };

    #[tactic(auto, unfolding(crate::specs::Items::adds_assign))]
    fn add(&mut self, alloc: Global, c: &mut Cursor<'_>) -> Result<(), SyntaxFault> {
        let target = take_expr(alloc, c, false)?;
        expect_mark(c, b'=')?;
        let value = take_expr(alloc, c, true)?;
        self.push(AssignDecl { target, value })?;
        Ok(())
    }
}

/// Takes assignments after their word.
#[tactic(auto, unfolding(crate::specs::Items::assigns_at))]
pub fn take_assigns(alloc: Global, c: &mut Cursor<'_>) -> Result<ItemDecl, SyntaxFault>
    ensures value { Reads c.old c.new Fails (λ i. i) result spec.assigns_at }
    ensures text { text_of c.new ≡ text_of c.old }
    ensures shorter { OnOk result (length (rest c.new) < length (rest c.old)) }
{
    let mut found = room_for_one(alloc)?;
    take_list(alloc, c, b';', &mut found)?;
    Ok(ItemDecl::Assigns(found))
}
