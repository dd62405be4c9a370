//! Gate primitives.
ghost use Rattle.std.specs.Prelude.{◌≡◌, ◌<◌, ◌≤◌, length, OnOk};
ghost use Rattle.std.specs.List.{list_any};
ghost use Rattle.sdcv_base.specs.Cursors.{rest, text_of};
ghost use Rattle.texts.specs.Rules.{Reads};
ghost use Rattle.verilog_words.specs.Reads.{Fails};
ghost use Rattle.verilog_syntax.specs.Items as spec;

use crate::declarations::{ItemDecl, Part, PartDecl, PrimDecl, TermDecl};
use crate::exprs::take_expr;
use crate::lists::{Gather, fitted, room_for_one, take_list};
use netlist_types::PrimKind;
use sdcv_base::{Cursor, Name, Seq};
use std::alloc::Global;
use verilog_words::{SyntaxFault, expect_mark, expect_open, is_next, refused, take_name};

/// The terminals of a primitive so far.
#[derive(Drop)]
struct Terms {
    kind: PrimKind,
    outs: Seq<TermDecl>,
    ins: Seq<TermDecl>,
}

/// The instances in one statement so far.
#[derive(Drop)]
struct Prims {
    kind: PrimKind,
    list: Seq<PrimDecl>,
}

/// Whether all terminals but the last are outputs; else the first alone is.
fn has_outputs(kind: PrimKind) -> bool
    ensures { result ≡ spec.has_outputs kind }
{
    matches!(kind, PrimKind::Buf | PrimKind::Not)
}

fn is_bits(part: &PartDecl) -> bool
    ensures { result ≡ spec.is_bits part.now }
{
    matches!(part.part, Part::Bits(_))
}

fn has_bits(parts: &[PartDecl]) -> bool
    ensures { result ≡ list_any spec.is_bits parts.now }
{
    parts.iter().any(is_bits)
}

/// A further terminal: where several may be outputs, one before a comma is, and holds no constant.
impl Gather for Terms {
    ghost adds = { spec.adds_term };

    #[tactic(auto, unfolding(crate::specs::Items::adds_term))]
    fn add(&mut self, alloc: Global, c: &mut Cursor<'_>) -> Result<(), SyntaxFault> {
        let term = take_expr(alloc, c, true)?;
        if !(has_outputs(self.kind) && is_next(c, b',')) {
            self.ins.push(term)?;
            return Ok(());
        }
        if has_bits(term.parts.as_slice()) {
            return Err(refused(c));
        }
        self.outs.push(term)?;
        Ok(())
    }
}

/// Takes the terminals after their `(`: an output first, and one more at least.
#[tactic(auto, unfolding(crate::specs::Items::terms_at))]
fn take_terms(alloc: Global, c: &mut Cursor<'_>, kind: PrimKind) -> Result<Terms, SyntaxFault>
    ensures value { Reads c.old c.new Fails (λ t. t) result (spec.terms_at kind) }
    ensures text { text_of c.new ≡ text_of c.old }
    ensures shorter { OnOk result (length (rest c.new) < length (rest c.old)) }
{
    let first = take_expr(alloc, c, false)?;
    expect_mark(c, b',')?;
    let mut terms = Terms {
        kind,
        outs: room_for_one(alloc)?,
        ins: Seq::new(alloc),
    };
    terms.outs.push(first)?;
    take_list(alloc, c, b')', &mut terms)?;
    Ok(terms)
}

/// Takes a name, unless a `(` comes next.
#[tactic(auto, unfolding(crate::specs::Items::name_or_none))]
fn name_or_none(alloc: Global, c: &mut Cursor<'_>) -> Result<Option<Name>, SyntaxFault>
    ensures value { Reads c.old c.new Fails (λ n. n) result spec.name_or_none }
    ensures text { text_of c.new ≡ text_of c.old }
    ensures within { OnOk result (length (rest c.new) ≤ length (rest c.old)) }
{
    if is_next(c, b'(') {
        return Ok(None);
    }
    let name = take_name(c)?;
    Ok(Some(Name::new(alloc, name)?))
}

/// An instance of a primitive.
impl Gather for Prims {
    ghost adds = { spec.adds_prim };

    #[tactic(auto, unfolding(crate::specs::Items::adds_prim))]
    fn add(&mut self, alloc: Global, c: &mut Cursor<'_>) -> Result<(), SyntaxFault> {
        let name = name_or_none(alloc, c)?;
        expect_open(c)?;
        let Terms { outs, ins, .. } = take_terms(alloc, c, self.kind)?;
        let ins = fitted(ins);
        self.list.push(PrimDecl { name, outs, ins })?;
        Ok(())
    }
}

/// Takes instances of a primitive after its word.
#[tactic(auto, unfolding(crate::specs::Items::prims_at))]
pub fn take_prims(
    alloc: Global,
    c: &mut Cursor<'_>,
    kind: PrimKind,
) -> Result<ItemDecl, SyntaxFault>
    ensures value { Reads c.old c.new Fails (λ i. i) result (spec.prims_at kind) }
    ensures text { text_of c.new ≡ text_of c.old }
    ensures shorter { OnOk result (length (rest c.new) < length (rest c.old)) }
{
    let mut found = Prims {
        kind,
        list: room_for_one(alloc)?,
    };
    take_list(alloc, c, b';', &mut found)?;
    Ok(ItemDecl::Prims {
        kind,
        list: found.list,
    })
}
