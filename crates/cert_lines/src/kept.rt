//! The line of a kept clause.
ghost use Rattle.std.specs.Prelude.{◌≡◌, ◌+◌, ◌≤◌, ◌<◌, true, false, IfOk, IfErr, OnOk};
ghost use Rattle.proof_log.specs.Literals.{lit_var};
ghost use Rattle.cert_words.specs.Lines.{Spells, IsLineStop};
ghost use Rattle.cert_lines.specs.Kinds.{state_literal, kept_words, IsKept};

use cert_words::{Stop, Words, take_lit, take_word};
use net_model::{InvClause, StateLit};
use proof_log::Lit;
use sdcv_base::Seq;
use std::alloc::Global;

/// How many literals a clause has at most, where clauses may not be long.
const MOST: usize = 2;

/// The value of the register whose number, from 1, is the literal's variable.
fn state_lit(lit: Lit) -> StateLit
    ensures lit { state_literal result ≡ lit }
    ensures reg { result.reg + 1 ≡ lit_var lit }
{
    StateLit {
        reg: lit.var() as usize - 1,
        value: lit.positive(),
    }
}

/// Whether a clause may have one literal more than so many.
fn may_go_on(long: bool, count: usize) -> bool
    ensures room { result ≡ true → long ≡ false → count < 2 }
    ensures full { result ≡ false → (long ≡ false) × (2 ≤ count) }
{
    long || count < MOST
}

/// The clause of a line: one literal or two, or any number where clauses may be long.
pub fn read_kept(alloc: Global, line: &[u8], cut: bool, long: bool) -> Result<InvClause, Stop>
    ensures ok { IfOk result (Spells (IsKept long) kept_words line.now) }
    ensures whole { OnOk result (cut ≡ false) }
    ensures err { IfErr result (IsLineStop (IsKept long) kept_words cut line.now) }
{
    let mut words = Words::new(line, cut);
    take_word(&mut words, b"k")?;
    let mut lits: Seq<StateLit> = Seq::new(alloc);
    let mut above = 0;
    loop {
        let lit = take_lit(&mut words, above)?;
        above = lit.var();
        lits.push(state_lit(lit))?;
        if words.is_done() {
            return Ok(InvClause { lits });
        }
        if !may_go_on(long, lits.len()) {
            return Err(Stop::Bad);
        }
    }
}
