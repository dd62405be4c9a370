//! The items of a module.
ghost use Rattle.std.specs.Prelude.{◌≡◌, ◌<◌, length, OnOk, Some};
ghost use Rattle.sdcv_base.specs.Cursors.{rest, text_of};
ghost use Rattle.texts.specs.Rules.{Gives, Reads};
ghost use Rattle.verilog_words.specs.Names.{identifier_len, next_word as spec_next_word};
ghost use Rattle.verilog_words.specs.Reads.{Fails};
ghost use Rattle.verilog_syntax.specs.Items as spec;

use crate::assigns::take_assigns;
use crate::declarations::{ItemDecl, NetKind};
use crate::insts::take_insts;
use crate::lists::Gather;
use crate::nets::take_nets;
use crate::ports::take_ports;
use crate::prims::take_prims;
use sdcv_base::{Cursor, Name, Seq};
use std::alloc::Global;
use verilog_words::{SyntaxFault, Word, identifier, next_word, refused, skip_identifier};

/// The items of a module so far, and whether the netlist is read wide.
#[derive(Drop)]
pub struct Items {
    pub wide: bool,
    pub list: Seq<ItemDecl>,
}

/// Takes an item that this word begins.
#[tactic(auto, unfolding(crate::specs::Items::word_item_at))]
fn take_word_item(
    alloc: Global,
    c: &mut Cursor<'_>,
    wide: bool,
    word: Word,
) -> Result<ItemDecl, SyntaxFault>
    requires { 0 < identifier_len (rest c.old) }
    ensures value { Reads c.old c.new Fails (λ i. i) result (spec.word_item_at wide word) }
    ensures text { text_of c.new ≡ text_of c.old }
    ensures shorter { OnOk result (length (rest c.new) < length (rest c.old)) }
{
    if matches!(word, Word::Input | Word::Output | Word::Inout) {
        return Ok(ItemDecl::Ports(take_ports(alloc, c, wide)?));
    }
    let fault = refused(c);
    skip_identifier(c);
    match word {
        Word::Wire => take_nets(alloc, c, NetKind::Wire),
        Word::Supply0 => take_nets(alloc, c, NetKind::Supply0),
        Word::Supply1 => take_nets(alloc, c, NetKind::Supply1),
        Word::Assign => take_assigns(alloc, c),
        Word::Gate(kind) => take_prims(alloc, c, kind),
        _ => Err(fault),
    }
}

/// Whether a word is left out: `inout` is, unless the netlist is read wide.
fn is_left_out(word: Option<Word>, wide: bool) -> bool
    ensures { result ≡ spec.is_left_out wide word }
{
    match word {
        Some(Word::Unsupported) => true,
        Some(Word::Inout) => !wide,
        _ => false,
    }
}

/// Refuses a word that is left out, with its place, where it comes next.
#[tactic(auto, unfolding(crate::specs::Items::supported_at))]
pub fn expect_supported(alloc: Global, c: &Cursor<'_>, wide: bool) -> Result<(), SyntaxFault>
    ensures { Gives (Fails (length (text_of c.now))) (λ _. rest c.now) result (spec.supported_at wide (length (text_of c.now)) (rest c.now)) }
{
    if !is_left_out(next_word(c), wide) {
        return Ok(());
    }
    let word = Name::new(alloc, identifier(c))?;
    Err(SyntaxFault::Unsupported(c.place(), word))
}

/// Takes an item: by its word, or instances of the cell or module of a name.
#[tactic(auto, unfolding(crate::specs::Items::item_at))]
fn take_item(alloc: Global, c: &mut Cursor<'_>, wide: bool) -> Result<ItemDecl, SyntaxFault>
    ensures value { Reads c.old c.new Fails (λ i. i) result (spec.item_at wide) }
    ensures text { text_of c.new ≡ text_of c.old }
    ensures shorter { OnOk result (length (rest c.new) < length (rest c.old)) }
{
    expect_supported(alloc, c, wide)?;
    match next_word(c) {
        Some(word) => take_word_item(alloc, c, wide, word),
        None => take_insts(alloc, c),
    }
}

/// An item of a module.
impl Gather for Items {
    ghost adds = { spec.adds_item };

    fn add(&mut self, alloc: Global, c: &mut Cursor<'_>) -> Result<(), SyntaxFault> {
        let item = take_item(alloc, c, self.wide)?;
        self.list.push(item)?;
        Ok(())
    }
}
