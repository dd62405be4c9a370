//! The commands of a text, each with its line.
ghost use Rattle.std.specs.Prelude.{◌≡◌, ◌+◌, ◌<◌, ◌≤◌, ◌^◌, length, OnErr, IfOk, IfSome};
ghost use Rattle.sdcv_base.specs.Cursors as cursors;
ghost use Rattle.sdc_words.specs.Lines as lines;

use crate::blanks::pass_blanks;
use crate::faults::WordFault;
use crate::lines::newlines;
use crate::passes::pass_words;
use crate::word_lists::{take_word, take_words};
use crate::words::RawCommand;
use sdcv_base::{Cursor, Seq};
use std::alloc::Global;
use texts::upto;

/// A text that is read command by command, and the line at its place.
#[derive(Clone, Copy)]
pub struct Commands<'a> {
    cursor: Cursor<'a>,
    line: u64,
    ghost counted: { line ≡ lines.line_of (cursors.text_of cursor) (cursors.rest cursor) },
    ghost short: { length (cursors.text_of cursor) + 1 < 2 ^ 64 },
}

/// The line at a place of a text, where this is the line at an earlier one.
fn line_at(line: u64, from: &Cursor<'_>, to: &Cursor<'_>) -> u64
    requires text { cursors.text_of to.now ≡ cursors.text_of from.now }
    requires later { length (cursors.rest to.now) ≤ length (cursors.rest from.now) }
    requires line { line ≡ lines.line_of (cursors.text_of from.now) (cursors.rest from.now) }
    requires short { length (cursors.text_of from.now) + 1 < 2 ^ 64 }
    ensures { result ≡ lines.line_of (cursors.text_of to.now) (cursors.rest to.now) }
{
    let passed = to.place() - from.place();
    line + newlines(upto(from.rest(), passed))
}

impl<'a> Commands<'a> {
    ghost use Rattle.texts.specs.Rules.{Gives};
    ghost use Rattle.sdc_words.specs.Reads.{Fails};
    ghost use Rattle.sdc_words.specs.Blanks.{after_blanks};
    ghost use Rattle.sdc_words.specs.Commands.{text_of, left_of, command_at, line_at as line_of_command, IsFront};

    /// Before the first command of the text.
    #[tactic(auto, unfolding(crate::specs::Commands::text_of, crate::specs::Commands::left_of))]
    pub fn new(text: &'a [u8]) -> Commands<'a>
        ensures text { text_of result ≡ text.now }
        ensures left { left_of result ≡ text.now }
    {
        Commands {
            cursor: Cursor::new(text),
            line: 1,
        }
    }

    /// How many bytes of the text are left.
    #[tactic(auto, unfolding(crate::specs::Commands::left_of))]
    pub fn left(&self) -> usize
        ensures { result ≡ length (left_of self.now) }
    {
        self.cursor.rest().len()
    }

    /// The same text at the beginning of its next command, or at its end.
    #[tactic(auto, unfolding(crate::specs::Commands::text_of, crate::specs::Commands::left_of))]
    pub fn at_command(&self) -> Commands<'a>
        ensures text { text_of result ≡ text_of self.now }
        ensures left { left_of result ≡ after_blanks (left_of self.now) }
        ensures within { length (left_of result) ≤ length (left_of self.now) }
    {
        let mut cursor = self.cursor;
        pass_blanks(&mut cursor);
        let line = line_at(self.line, &self.cursor, &cursor);
        Commands { cursor, line }
    }

    /// The next command with its first word alone, and `None` at the text's end.
    #[tactic(auto, unfolding(crate::specs::Commands::text_of, crate::specs::Commands::left_of))]
    pub fn front(&self, alloc: Global) -> Result<Option<RawCommand>, WordFault>
        ensures { IfOk result (λ front. IfSome front (λ f. IsFront f (command_at (text_of self.now) (left_of self.now)))) }
    {
        let begin = self.at_command();
        let mut cursor = begin.cursor;
        if cursor.rest().is_empty() {
            return Ok(None);
        }
        let mut opened = 0usize;
        let first = take_word(alloc, &mut cursor, &mut opened)?;
        Ok(Some(RawCommand {
            line: begin.line,
            words: Seq::one(alloc, first)?,
        }))
    }

    /// Passes the next command, of which only its line is kept, and gives `None` at the text's end. After an error it stands
    /// where it stood.
    #[tactic(auto, unfolding(crate::specs::Commands::text_of, crate::specs::Commands::left_of, crate::specs::Commands::command_at))]
    pub fn pass_command(&mut self, alloc: Global) -> Result<Option<u64>, WordFault>
        ensures value { Gives (Fails (length (text_of self.old))) (λ line. (line, left_of self.new)) result
            (line_of_command (text_of self.old) (left_of self.old)) }
        ensures text { text_of self.new ≡ text_of self.old }
        ensures shorter { IfOk result (λ line. IfSome line (λ _. length (left_of self.new) < length (left_of self.old))) }
        ensures err { OnErr result (left_of self.new ≡ left_of self.old) }
    {
        let begin = self.at_command();
        let mut cursor = begin.cursor;
        if cursor.rest().is_empty() {
            *self = begin;
            return Ok(None);
        }
        pass_words(alloc, &mut cursor)?;
        let line = line_at(begin.line, &begin.cursor, &cursor);
        *self = Commands { cursor, line };
        Ok(Some(begin.line))
    }

    /// Takes the next command, and `None` at the text's end. After an error it stands where it stood.
    #[tactic(auto, unfolding(crate::specs::Commands::text_of, crate::specs::Commands::left_of, crate::specs::Commands::command_at))]
    pub fn next_command(&mut self, alloc: Global) -> Result<Option<RawCommand>, WordFault>
        ensures value { Gives (Fails (length (text_of self.old))) (λ command. (command, left_of self.new)) result
            (command_at (text_of self.old) (left_of self.old)) }
        ensures text { text_of self.new ≡ text_of self.old }
        ensures shorter { IfOk result (λ command. IfSome command (λ _. length (left_of self.new) < length (left_of self.old))) }
        ensures err { OnErr result (left_of self.new ≡ left_of self.old) }
    {
        let begin = self.at_command();
        let mut cursor = begin.cursor;
        if cursor.rest().is_empty() {
            *self = begin;
            return Ok(None);
        }
        let words = take_words(alloc, &mut cursor)?;
        self.line = line_at(begin.line, &begin.cursor, &cursor);
        self.cursor = cursor;
        Ok(Some(RawCommand {
            line: begin.line,
            words,
        }))
    }
}
