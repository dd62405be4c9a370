//! The commands of groups of pairs.
ghost use Rattle.std.specs.Prelude.{◌≡◌, ◌<◌, ◌++◌, ◌∷◌, [], length, map, IfOk, OnOk};
ghost use Rattle.mend_lines.specs.Lines as spec;

use crate::lists::push_through;
use crate::names::push_named;
use crate::stars::{ends_in, heads};
use crate::words::{from_word, get_end, get_start};
use mend_groups::{EndClass, Group, Row};
use script_types::Object;
use sdcv_base::{Name, Seq};
use selected_types::PairLine;
use std::alloc::{AllocError, Global};

/// What the commands of a group have in common: the words before their options of the start, the names of pairs, and the
/// through lists.
#[derive(Clone, Copy)]
pub(crate) struct Terms<'a> {
    pub head: &'a [u8],
    pub pairs: &'a Seq<PairLine>,
    pub through: &'a Seq<Seq<Object>>,
}

/// The commands of some groups, in order.
pub(crate) fn lines_after(
    alloc: Global,
    terms: &Terms<'_>,
    groups: &Seq<Group>,
) -> Result<Seq<Name>, AllocError>
    ensures { IfOk result (λ lines. lines ≡ spec.lines_after terms.now.head.now terms.now.pairs.now terms.now.through.now groups.now) }
{
    let mut lines = Seq::new(alloc);
    for place in 0..groups.len() {
        push_group(alloc, terms, groups.item(place), &mut lines)?;
    }
    Ok(lines)
}

/// Adds the commands of a group.
pub(crate) fn push_group(
    alloc: Global,
    terms: &Terms<'_>,
    group: &Group,
    lines: &mut Seq<Name>,
) -> Result<(), AllocError>
    ensures { OnOk result (lines.new ≡ lines.old ++ spec.lines_of_group terms.now.head.now terms.now.pairs.now terms.now.through.now group.now) }
{
    let starts = heads(alloc, group)?;
    let registers = ends_in(alloc, EndClass::Regs, group)?;
    push_line(alloc, terms, &starts, &registers, lines)?;
    let outputs = ends_in(alloc, EndClass::Ports, group)?;
    push_line(alloc, terms, &starts, &outputs, lines)?;
    let sinks = ends_in(alloc, EndClass::Sinks, group)?;
    push_line(alloc, terms, &starts, &sinks, lines)
}

fn push_line(
    alloc: Global,
    terms: &Terms<'_>,
    starts: &Seq<Row>,
    ends: &Seq<Row>,
    lines: &mut Seq<Name>,
) -> Result<(), AllocError>
    ensures { OnOk result (lines.new ≡ lines.old ++
        map (spec.line_after terms.now.head.now) (spec.rests_for terms.now.pairs.now terms.now.through.now starts.now ends.now)) }
{
    if starts.len() != 0 && ends.len() != 0 {
        let mut line = Vec::from_slice(alloc, terms.head)?;
        push_rest(&mut line, terms, starts, ends)?;
        lines.push(Name::from_vec(line))?;
    }
    Ok(())
}

// A command from its option of the start on, after what stands there.
fn push_rest(
    line: &mut Vec<u8>,
    terms: &Terms<'_>,
    starts: &Seq<Row>,
    ends: &Seq<Row>,
) -> Result<(), AllocError>
    requires starts { 0 < length starts.now }
    requires ends { 0 < length ends.now }
    ensures { OnOk result (line.new.items ∷ [] ≡
        map (spec.line_after line.old.items) (spec.rests_for terms.now.pairs.now terms.now.through.now starts.now ends.now)) }
{
    push_from(line, terms.pairs, starts.at(0), starts)?;
    push_through(line, terms.through)?;
    push_to(line, terms.pairs, ends.at(0), ends)
}

fn push_from(
    line: &mut Vec<u8>,
    pairs: &Seq<PairLine>,
    first: Row,
    starts: &Seq<Row>,
) -> Result<(), AllocError>
    ensures { OnOk result (line.new.items ≡ line.old.items ++ spec.from_text pairs.now first starts.now) }
{
    line.extend_from_slice(from_word(first.edge).as_bytes())?;
    line.extend_from_slice(b" ")?;
    push_named(line, get_start(first.start), pairs, starts, false)
}

fn push_to(
    line: &mut Vec<u8>,
    pairs: &Seq<PairLine>,
    end: Row,
    ends: &Seq<Row>,
) -> Result<(), AllocError>
    ensures { OnOk result (line.new.items ≡ line.old.items ++ spec.to_text pairs.now end ends.now) }
{
    line.extend_from_slice(b" -to ")?;
    push_named(line, get_end(end.class), pairs, ends, true)
}
