//! What public calls answer at a value, proved from their contracts alone.
ghost use Rattle.std.specs.Prelude.{◌≡◌, [], ◌∷◌, codes, true, false, IfOk, Some};
ghost use Rattle.sdcv_base.specs.Cursors.{rest, text_of};
ghost use Rattle.net_model.specs.Netlist.{IsSound};
ghost use Rattle.icg_rewrite.specs.Gated.{AreGated};
ghost use Rattle.lib_func.specs.Trees.{NameTree, XorTree};
ghost use Rattle.worked_values.specs.Designs.{looped, in_order, gated as a_gated, enabled};

use glob::matches;
use graph_order::{OrderFault, order_of};
use icg_rewrite::{Gated, RewriteFault, rewrite};
use lib_func::{Expr, read_function};
use net_model::{Design, End, PinSet, Start};
use net_paths::has_path;
use sdcv_base::{Cursor, Seq};
use std::alloc::{AllocError, Global};
use verilog_words::{SyntaxFault, skip_blanks, take_constant};

/// A comment is passed over up to its own end.
#[tactic(auto, using(crate::proofs::Verilog::comment_is_passed_over))]
pub fn comment_is_skipped(c: &mut Cursor<'_>)
    requires { rest c.old ≡ codes "/*a*/b" }
    ensures { rest c.new ≡ codes "b" }
{
    skip_blanks(c, false)
}

/// `^` is exclusive or.
#[tactic(auto, using(crate::proofs::Liberty::caret_is_exclusive_or))]
pub fn caret_is_read_as_exclusive_or(alloc: Global, text: &[u8]) -> Result<Option<Expr>, AllocError>
    requires { text.now ≡ codes "A^B" }
    ensures { IfOk result (λ found. found ≡ Some (XorTree (NameTree (codes "A")) (NameTree (codes "B")))) }
{
    read_function(alloc, text)
}

/// What is needed comes first.
#[tactic(auto, using(crate::proofs::Orders::need_comes_first))]
pub fn need_is_ordered_first(alloc: Global, needs: &[Seq<usize>]) -> Result<Seq<usize>, OrderFault>
    requires { needs.now ≡ (1 ∷ []) ∷ [] ∷ [] }
    ensures { IfOk result (λ order. order ≡ 1 ∷ 0 ∷ []) }
{
    order_of(alloc, needs)
}

/// A star matches no `/`.
#[tactic(auto, using(crate::proofs::Globs::star_matches_no_slash))]
pub fn star_is_matched_within_a_part(pattern: &[u8], name: &[u8]) -> bool
    requires pattern { pattern.now ≡ codes "u*q" }
    requires name { name.now ≡ codes "u1/q" }
    ensures { result ≡ false }
{
    matches(pattern, name, false)
}

/// 4'd5 is 0101.
#[tactic(auto, using(crate::proofs::Verilog::constant_has_the_bits_of_its_value))]
pub fn constant_is_taken(alloc: Global, c: &mut Cursor<'_>) -> Result<Seq<bool>, SyntaxFault>
    requires rest { rest c.old ≡ codes "4'd5" }
    requires whole { text_of c.old ≡ codes "4'd5" }
    ensures { IfOk result (λ bits. bits ≡ false ∷ true ∷ false ∷ true ∷ []) }
{
    take_constant(alloc, c)
}

/// A register behind a clock gate takes its next state where the enable is 1, and else keeps its bit.
#[tactic(auto, using(crate::proofs::Enables::gated_register_keeps_its_bit))]
pub fn register_keeps_its_bit(alloc: Global, gated: &Gated) -> Result<Design, RewriteFault>
    requires are { AreGated gated.now }
    requires is { gated.now ≡ a_gated }
    ensures { IfOk result (λ design. design ≡ enabled) }
{
    rewrite(alloc, gated)
}

/// A path leads from a register to itself, and meets its through sets in their order.
#[tactic(auto, using(crate::proofs::Paths::register_has_a_path_to_itself))]
pub fn path_to_itself_is_found(
    alloc: Global,
    design: &Design,
    through: &Seq<PinSet>,
) -> Result<bool, AllocError>
    requires sound { IsSound design.now }
    requires design { design.now ≡ looped }
    requires through { through.now ≡ in_order }
    ensures { IfOk result (λ found. found ≡ true) }
{
    has_path(alloc, design, &Start::Reg(0), &End::Reg(0), through)
}
