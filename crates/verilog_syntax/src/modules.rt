//! Modules, and the text that is a row of them.
ghost use Rattle.std.specs.Prelude.{◌≡◌, ◌<◌, length, OnOk};
ghost use Rattle.sdcv_base.specs.Cursors.{rest, text_of};
ghost use Rattle.texts.specs.Rules.{Gives, Reads};
ghost use Rattle.verilog_words.specs.Reads.{Fails};
ghost use Rattle.verilog_syntax.specs.Modules as spec;

use crate::declarations::ModuleDecl;
use crate::items::{Items, expect_supported};
use crate::lists::{Gather, Row, take_row};
use crate::ports::take_head;
use sdcv_base::{Cursor, Name, Seq};
use std::alloc::Global;
use verilog_words::{SyntaxFault, expect_mark, expect_word, has_word, skip_blanks, take_name};

/// The modules so far, and whether the netlist is read wide.
#[derive(Drop)]
struct Modules {
    wide: bool,
    list: Seq<ModuleDecl>,
}

/// The modules that the whole text is. `Syntax` comes with the place of the first byte at which the grammar cannot go on, and
/// `Unsupported` where a word that is left out begins an item, or stands where a module could begin. Where the netlist is read
/// wide, `inout` is a direction, and else a word that is left out.
#[tactic(auto, unfolding(crate::specs::Modules::modules_of))]
pub fn read_modules(alloc: Global, text: &[u8], wide: bool) -> Result<Seq<ModuleDecl>, SyntaxFault>
    ensures { Gives (Fails (length text.now)) (λ m. m) result (spec.modules_of wide text.now) }
{
    let mut c = Cursor::new(text);
    skip_blanks(&mut c, true);
    let list = Seq::new(alloc);
    let mut modules = Modules { wide, list };
    take_row(alloc, &mut c, &mut modules)?;
    Ok(modules.list)
}

impl Row for Items {
    ghost ends = { spec.ends_module };

    fn has_ended(c: &Cursor<'_>) -> bool {
        has_word(c, "endmodule")
    }
}

/// Takes a module.
#[tactic(auto, unfolding(crate::specs::Modules::module_at))]
fn take_module(alloc: Global, c: &mut Cursor<'_>, wide: bool) -> Result<ModuleDecl, SyntaxFault>
    ensures value { Reads c.old c.new Fails (λ m. m) result (spec.module_at wide) }
    ensures text { text_of c.new ≡ text_of c.old }
    ensures shorter { OnOk result (length (rest c.new) < length (rest c.old)) }
{
    expect_supported(alloc, c, wide)?;
    expect_word(c, "module")?;
    let name = take_name(c)?;
    let head = take_head(alloc, c, wide)?;
    expect_mark(c, b';')?;
    let list = Seq::new(alloc);
    let mut items = Items { wide, list };
    take_row(alloc, c, &mut items)?;
    expect_word(c, "endmodule")?;
    let name = Name::new(alloc, name)?;
    let items = items.list;
    Ok(ModuleDecl { name, head, items })
}

/// A module of a text.
impl Gather for Modules {
    ghost adds = { spec.adds_module };

    fn add(&mut self, alloc: Global, c: &mut Cursor<'_>) -> Result<(), SyntaxFault> {
        let module = take_module(alloc, c, self.wide)?;
        self.list.push(module)?;
        Ok(())
    }
}

impl Row for Modules {
    ghost ends = { spec.ends_text };

    fn has_ended(c: &Cursor<'_>) -> bool {
        c.rest().is_empty()
    }
}
