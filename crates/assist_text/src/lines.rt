//! A text, line by line.
ghost use Rattle.std.specs.Prelude.{◌++◌, List, All, IfErr, IfOk, OnOk};
ghost use Rattle.assist_text.specs.Lines.{Said, said_at};
ghost use Rattle.assist_text.specs.Clauses.{AreClauses, IsTextOf, IsOneOrMore};
ghost use Rattle.assist_text.specs.Causes.{IsCause, IsCauseIn};

use crate::words::{check_names, settings};
use assist_types::{Assist, AssistClause, AssistFault};
use sdcv_base::Seq;
use std::alloc::Global;
use texts::byte_at;

/// So many clauses a text may have.
const MOST_CLAUSES: usize = 8192;

/// Adds the clause of a line, where the line says something.
fn add_line(
    alloc: Global,
    clauses: &mut Seq<AssistClause>,
    line: u64,
    text: &[u8],
) -> Result<(), AssistFault>
    ensures ok { (before : List Said) → AreClauses before clauses.old → OnOk result (AreClauses (before ++ said_at line text.now) clauses.new) }
    ensures err { (before : List Said) → AreClauses before clauses.old → IfErr result (IsCauseIn (before ++ said_at line text.now)) }
{
    if byte_at(text, 0) == b'#' {
        return Ok(());
    }
    let lits = settings(alloc, line, text)?;
    if lits.is_empty() {
        return Ok(());
    }
    check_names(alloc, line, &lits)?;
    if clauses.len() >= MOST_CLAUSES {
        return Err(AssistFault::Many(8193));
    }
    clauses.push(AssistClause { line, lits })?;
    Ok(())
}

/// The clauses of a text. A text with several faults is refused by one of them.
pub fn read_assist(alloc: Global, text: &[u8]) -> Result<Assist, AssistFault>
    ensures ok { IfOk result (IsTextOf text.now) }
    ensures one_or_more { IfOk result (λ a. All IsOneOrMore a.clauses) }
    ensures err { IfErr result (IsCause text.now) }
{
    let mut clauses = Seq::new(alloc);
    let mut number = 0;
    for line in text.split(|byte| *byte == b'\n') {
        number += 1;
        add_line(alloc, &mut clauses, number, line)?;
    }
    Ok(Assist { clauses })
}
