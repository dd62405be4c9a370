//! A text that is read token by token.
ghost use Rattle.std.specs.Prelude.{◌≡◌, ◌≤◌, ◌++◌, ◌∷◌, [], ℕ, List, None, Some, OnOk, IfOk, IfErr};
ghost use Rattle.dimacs_text.specs.Tokens.{Placed, IsFew, tokens};
ghost use Rattle.dimacs_text.specs.Texts.{IsTextOf, IsHeaded};
ghost use Rattle.dimacs_text.specs.Faults.{IsStop, IsShort};
ghost use Rattle.dimacs_text.specs.Readings.{IsRead, IsReadAfter, IsKeptIn, IsEnded};
ghost use Rattle.dimacs_text.specs.declared.tokens.Token.TheVariants as token;
ghost use Rattle.dimacs_text.specs.declared.faults.DimacsFault.TheVariants as fault;

use crate::counts::Counts;
use crate::faults::DimacsFault;
use crate::headed::Headed;
use crate::tokens::Token;
use proof_log::{ClauseTable, Formula, Lit};
use std::alloc::Global;

/// What is read so far: the header, the clauses that are kept, how many there were, the literals of the clause that is begun, and the
/// greatest variable of a literal.
#[derive(Drop)]
pub(crate) struct Reading {
    pub header: Option<Counts>,
    pub clauses: ClauseTable,
    pub count: u64,
    pub begun: Vec<Lit>,
    pub greatest: u32,
}

impl Reading {
    /// Nothing read but maybe a header.
    fn of(alloc: Global, header: Option<Counts>) -> Reading
        ensures header { result.header ≡ header }
        ensures clauses { result.clauses ≡ [] }
        ensures count { result.count ≡ 0 }
        ensures begun { result.begun.items ≡ [] }
        ensures greatest { result.greatest ≡ 0 }
    {
        Reading {
            header,
            clauses: ClauseTable::new(alloc),
            count: 0,
            begun: Vec::new(alloc),
            greatest: 0,
        }
    }

    /// Nothing read.
    pub(crate) fn new(alloc: Global) -> Reading
        ensures { IsRead [] result }
    {
        Reading::of(alloc, None)
    }

    /// Reads a token on that line.
    pub(crate) fn take(&mut self, alloc: Global, line: u64, token: Token) -> Result<(), DimacsFault>
        requires few { IsFew token }
        ensures ok { (placed : List Placed) → IsRead placed self.old → OnOk result (IsRead (placed ++ (line, token) ∷ []) self.new) }
        ensures err { (placed : List Placed) → IsRead placed self.old → IfErr result (IsStop (placed ++ (line, token) ∷ [])) }
    {
        match self.header {
            None => self.begin(alloc, line, token),
            Some(counts) => self.take_after(counts, line, token),
        }
    }

    /// Reads the first token, which is to be a header.
    fn begin(&mut self, alloc: Global, line: u64, token: Token) -> Result<(), DimacsFault>
        requires few { IsFew token }
        ensures ok { OnOk result (IsRead ((line, token) ∷ []) self.new) }
        ensures err { IfErr result (IsStop ((line, token) ∷ [])) }
    {
        match token {
            Token::Header { vars, told } => {
                *self = Reading::of(alloc, Some(Counts { vars, told }));
                Ok(())
            }
            Token::NoHeader => Err(DimacsFault::Header(line)),
            Token::Number { .. } => Err(DimacsFault::Early(line)),
            Token::NoNumber => Err(DimacsFault::Early(line)),
        }
    }

    /// Reads a token after the header.
    fn take_after(&mut self, counts: Counts, line: u64, token: Token) -> Result<(), DimacsFault>
        requires header { self.old.header ≡ Some counts }
        ensures ok { (placed : List Placed) → IsReadAfter placed counts.vars counts.told self.old
            → OnOk result (IsRead (placed ++ (line, token) ∷ []) self.new) }
        ensures err { (placed : List Placed) → IsReadAfter placed counts.vars counts.told self.old → IfErr result (IsStop (placed ++ (line, token) ∷ [])) }
    {
        match token {
            Token::Number { positive, var } => {
                if var > u64::from(counts.vars) {
                    return Err(DimacsFault::Variable(line));
                }
                self.number(counts, positive, var as u32)
            }
            Token::NoNumber => Err(DimacsFault::Word(line)),
            Token::Header { .. } => Err(DimacsFault::Header(line)),
            Token::NoHeader => Err(DimacsFault::Header(line)),
        }
    }

    /// Reads a number of the header's variables: a literal, or the end of a clause.
    fn number(&mut self, counts: Counts, positive: bool, var: u32) -> Result<(), DimacsFault>
        requires header { self.old.header ≡ Some counts }
        requires within { var ≤ counts.vars }
        ensures ok { (placed : List Placed) (line : ℕ) → IsReadAfter placed counts.vars counts.told self.old
            → OnOk result (IsRead (placed ++ (line, token.Number positive var) ∷ []) self.new) }
        ensures err { IfErr result (λ e. e ≡ fault.Memory) }
    {
        if var == 0 {
            return self.end_clause();
        }
        self.begun.push(Lit::new(var, positive))?;
        self.greatest = self.greatest.max(var);
        Ok(())
    }

    /// Ends the clause that is begun.
    fn end_clause(&mut self) -> Result<(), DimacsFault>
        ensures ok { OnOk result (IsEnded self.old self.new) }
        ensures err { IfErr result (λ e. e ≡ fault.Memory) }
    {
        // More clauses than a number counts are more than any memory holds.
        let Some(count) = self.count.checked_add(1) else {
            return Err(DimacsFault::Memory);
        };
        self.keep()?;
        self.count = count;
        self.begun.clear();
        Ok(())
    }

    /// Keeps the clause that is begun in normal form, unless two of its literals are complements.
    fn keep(&mut self) -> Result<(), DimacsFault>
        ensures ok { OnOk result (IsKeptIn self.old self.new) }
        ensures err { IfErr result (λ e. e ≡ fault.Memory) }
    {
        self.clauses.push_normal(&self.begun)?;
        Ok(())
    }

    /// The formula, after the last token.
    pub(crate) fn formula(self) -> Result<Headed, DimacsFault>
        ensures ok { (text : List ℕ) → IsRead (tokens text) self → IfOk result (IsTextOf text) }
        ensures formula { (text : List ℕ) → IsRead (tokens text) self → IfOk result IsHeaded }
        ensures err { (text : List ℕ) → IsRead (tokens text) self → IfErr result (IsShort (tokens text)) }
    {
        let Reading {
            header,
            clauses,
            count,
            begun,
            greatest,
        } = self;
        let Some(Counts { vars, told }) = header else {
            return Err(DimacsFault::NoHeader);
        };
        if !begun.is_empty() {
            return Err(DimacsFault::Unfinished);
        }
        if count != told {
            return Err(DimacsFault::Count(count, told));
        }
        let formula = Formula {
            vars: greatest,
            clauses,
        };
        Ok(Headed { vars, formula })
    }
}
