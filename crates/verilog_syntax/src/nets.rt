//! Declarations of nets.
ghost use Rattle.std.specs.Prelude.{◌≡◌, ◌<◌, length, OnOk};
ghost use Rattle.sdcv_base.specs.Cursors.{rest, text_of};
ghost use Rattle.texts.specs.Rules.{Reads};
ghost use Rattle.verilog_words.specs.Reads.{Fails};
ghost use Rattle.verilog_syntax.specs.Items as spec;

use crate::declarations::{ItemDecl, NetKind};
use crate::lists::{Gather, room_for_one, take_list};
use crate::parts::range_or_none;
use sdcv_base::{Cursor, Name, Seq};
use std::alloc::Global;
use verilog_words::{SyntaxFault, take_name};

/// A net.
impl Gather for Seq<Name> {
    ghost adds = { spec.adds_name };

    fn add(&mut self, alloc: Global, c: &mut Cursor<'_>) -> Result<(), SyntaxFault> {
        let name = take_name(c)?;
        self.push(Name::new(alloc, name)?)?;
        Ok(())
    }
}

/// Takes a declaration of nets after its word.
#[tactic(auto, unfolding(crate::specs::Items::nets_at))]
pub fn take_nets(alloc: Global, c: &mut Cursor<'_>, kind: NetKind) -> Result<ItemDecl, SyntaxFault>
    ensures value { Reads c.old c.new Fails (λ i. i) result (spec.nets_at kind) }
    ensures text { text_of c.new ≡ text_of c.old }
    ensures shorter { OnOk result (length (rest c.new) < length (rest c.old)) }
{
    let range = range_or_none(c)?;
    let mut names = room_for_one(alloc)?;
    take_list(alloc, c, b';', &mut names)?;
    Ok(ItemDecl::Nets { kind, range, names })
}
