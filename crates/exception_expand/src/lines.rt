//! Selected pairs as they are listed.
ghost use Rattle.std.specs.Prelude.{◌≡◌, ◌++◌, All, IfOk, OnOk, map};
ghost use Rattle.linked_types.specs.Usable.{IsUsable};
ghost use Rattle.exception_expand.specs.Naming.{AreRegCells};
ghost use Rattle.exception_expand.specs.Selections.{pair_line as line, side_line};
ghost use Rattle.exception_expand.specs.Pairs.{IsPairIn};
ghost use Rattle.exception_expand.specs.declared.sides.Side.{Side as SideRecord};

use crate::names::{end_name, start_name};
use crate::pairs::Pair;
use crate::sides::Side;
use linked_types::Linked;
use sdcv_base::Seq;
use selected_types::PairLine;
use std::alloc::{AllocError, Global};

/// Names for what is listed: a linked design, and the places of the cells of its registers.
#[derive(Clone, Copy)]
pub(crate) struct Names<'a> {
    pub linked: &'a Linked,
    pub cells: &'a Seq<Option<usize>>,
}

/// Adds a line for each side of a pair of the exception of this number.
pub(crate) fn push_lines(
    alloc: Global,
    names: &Names,
    number: u64,
    sides: &Seq<Side>,
    lines: &mut Seq<PairLine>,
) -> Result<(), AllocError>
    requires usable { IsUsable names.now.linked.now }
    requires cells { AreRegCells names.now.linked.now names.now.cells.now }
    requires sides { All (λ (s : SideRecord). IsPairIn names.now.linked.now.design s.pair) sides.now }
    ensures { OnOk result (lines.new ≡ lines.old ++ map (side_line names.now.linked.now number) sides.now) }
{
    for k in 0..sides.len() {
        lines.push(pair_line(alloc, names, number, sides.at(k).pair)?)?;
    }
    Ok(())
}

fn pair_line(alloc: Global, names: &Names, number: u64, pair: Pair) -> Result<PairLine, AllocError>
    requires usable { IsUsable names.now.linked.now }
    requires cells { AreRegCells names.now.linked.now names.now.cells.now }
    requires pair { IsPairIn names.now.linked.now.design pair }
    ensures { IfOk result (λ made. made ≡ line names.now.linked.now number pair) }
{
    let start = start_name(alloc, names.linked, names.cells, pair.start)?;
    let end = end_name(alloc, names.linked, names.cells, pair.end)?;
    Ok(PairLine {
        command: number,
        start,
        end,
    })
}
