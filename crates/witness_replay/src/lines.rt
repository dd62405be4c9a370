//! The lines of a text, one after another.
ghost use Rattle.std.specs.Prelude.{◌≡◌, ℕ, ◌==◌, not, ◌<◌, ◌≤◌, ◌+◌, ◌^◌, [], ◌∷◌, length, drop, MatchOption, IfOk, IfErr, OnOk};
ghost use Rattle.std.specs.List.{prefix_len};

use crate::faults::StimFault;

/// The lines of a text that are left, and how many were passed. The text is cut at newlines, and a last piece without one
/// is a line too.
#[derive(Clone, Copy)]
pub struct Lines<'a> {
    rest: &'a [u8],
    passed: u64,
    ghost room: { passed + length rest.now < 2 ^ 63 },
}

/// How many bytes come before the first newline, or before the end.
fn line_len(text: &[u8]) -> usize
    ensures value { result ≡ prefix_len (λ b. not (b == 10)) text.now }
    ensures within { result ≤ length text.now }
{
    text.iter().take_while(|byte| **byte != b'\n').count()
}

/// What follows the first byte, where there is one.
fn after_byte(text: &[u8]) -> &[u8]
    ensures { result.now ≡ drop 1 text.now }
{
    match text.split_first() {
        Some((_byte, rest)) => rest,
        None => text,
    }
}

impl<'a> Lines<'a> {
    ghost use Rattle.witness_replay.specs.Blocks.{lines};
    ghost use Rattle.witness_replay.specs.BlockParts.{left, next_number};

    pub fn new(text: &'a [u8]) -> Lines<'a>
        ensures left { left result ≡ lines text.now }
        ensures first { next_number result ≡ 1 }
    {
        Lines {
            rest: text,
            passed: 0,
        }
    }

    /// The number of the line that was passed last.
    pub fn number(&self) -> u64
        ensures { result + 1 ≡ next_number self.now }
    {
        self.passed
    }

    /// Passes the next line; `None` where none is left.
    #[tactic(auto, using(crate::proofs::LineLemmas::lines_first), unfolding(crate::specs::Blocks::lines))]
    pub fn next_line(&mut self) -> Option<&'a [u8]>
        ensures line { MatchOption result ((left self.old ≡ []) × (left self.new ≡ [])) (λ line. left self.old ≡ line.now ∷ left self.new) }
        ensures number { MatchOption result (next_number self.new ≡ next_number self.old) (λ _. next_number self.new ≡ next_number self.old + 1) }
    {
        if self.rest.is_empty() {
            return None;
        }
        let (line, rest) = self.rest.split_at(line_len(self.rest));
        self.rest = after_byte(rest);
        self.passed += 1;
        Some(line)
    }

    /// Passes the next line, where one is due.
    pub fn due_line(&mut self) -> Result<&'a [u8], StimFault>
        ensures ok { IfOk result (λ line. left self.old ≡ line.now ∷ left self.new) }
        ensures number { OnOk result (next_number self.new ≡ next_number self.old + 1) }
        ensures err { IfErr result (λ e. (e ≡ StimFault.Form (next_number self.old)) × (left self.old ≡ [])) }
    {
        match self.next_line() {
            Some(line) => Ok(line),
            None => Err(StimFault::Form(self.passed + 1)),
        }
    }
}
