//! Words of the language, and names.
ghost use Rattle.std.specs.Prelude.{◌≡◌, ◌<◌, ◌≤◌, ◌↔◌, length, drop, OnOk, IsTrue, IsSome, if◌then◌else◌};
ghost use Rattle.std.specs.Char.{is_ascii_graphic};
ghost use Rattle.std.specs.List.{prefix_len};
ghost use Rattle.sdcv_base.specs.Cursors.{rest, text_of};
ghost use Rattle.texts.specs.Rules.{Gives, Reads};
ghost use Rattle.verilog_words.specs.Reads.{Fails};
ghost use Rattle.verilog_words.specs.Names as spec;

use crate::blanks::skip_blanks;
use crate::faults::SyntaxFault;
use crate::marks::{is_next, refused};
use crate::words::{Word, word_of};
use sdcv_base::Cursor;
use texts::{after, byte_at, is_letter, is_word, upto};

fn is_name_byte(byte: u8) -> bool
    ensures { result ≡ spec.is_name_byte byte }
{
    is_word(byte) || byte == b'$'
}

fn name_bytes(text: &[u8]) -> usize
    ensures value { result ≡ prefix_len spec.is_name_byte text.now }
    ensures within { result ≤ length text.now }
{
    text.iter().take_while(|byte| is_name_byte(**byte)).count()
}

/// The length of the identifier at the front, and 0 where none stands there.
#[tactic(auto, unfolding(crate::specs::Names::identifier_len))]
fn identifier_len(text: &[u8]) -> usize
    ensures value { result ≡ spec.identifier_len text.now }
    ensures within { result ≤ length text.now }
{
    if is_letter(byte_at(text, 0)) {
        name_bytes(text)
    } else {
        0
    }
}

/// The identifier that comes next, a word or a name, and no bytes where none does.
pub fn identifier<'a>(c: &Cursor<'a>) -> &'a [u8]
    ensures value { result.now ≡ spec.identifier (rest c.now) }
    ensures len { length result.now ≡ spec.identifier_len (rest c.now) }
{
    let text = c.rest();
    upto(text, identifier_len(text))
}

/// The word of the language that comes next.
#[tactic(auto, using(crate::proofs::WordLemmas::word_some))]
pub fn next_word(c: &Cursor<'_>) -> Option<Word>
    ensures value { result ≡ spec.next_word (rest c.now) }
    ensures some { IsSome result → 0 < spec.identifier_len (rest c.now) }
{
    word_of(identifier(c))
}

/// Passes the identifier that comes next.
pub fn skip_identifier(c: &mut Cursor<'_>)
    requires { 0 < spec.identifier_len (rest c.old) }
    ensures rest { rest c.new ≡ spec.after_identifier (rest c.old) }
    ensures text { text_of c.new ≡ text_of c.old }
    ensures shorter { length (rest c.new) < length (rest c.old) }
{
    let len = identifier_len(c.rest());
    c.skip(len);
    skip_blanks(c, false);
}

/// Whether this word comes next.
pub fn has_word(c: &Cursor<'_>, word: &str) -> bool
    requires { 0 < length word.now }
    ensures value { result ≡ spec.has_word word.now (rest c.now) }
    ensures some { IsTrue result → 0 < spec.identifier_len (rest c.now) }
{
    identifier(c) == word.as_bytes()
}

/// Passes this word where it comes next, and else nothing.
pub fn try_word(c: &mut Cursor<'_>, word: &str) -> bool
    requires { 0 < length word.now }
    ensures value { result ≡ spec.has_word word.now (rest c.old) }
    ensures rest { rest c.new ≡ (if result then spec.after_identifier (rest c.old) else rest c.old) }
    ensures text { text_of c.new ≡ text_of c.old }
    ensures shorter { IsTrue result → length (rest c.new) < length (rest c.old) }
{
    if !has_word(c, word) {
        return false;
    }
    skip_identifier(c);
    true
}

/// Passes this word.
#[tactic(auto, unfolding(crate::specs::Names::word_at))]
pub fn expect_word(c: &mut Cursor<'_>, word: &str) -> Result<(), SyntaxFault>
    requires { 0 < length word.now }
    ensures value { Gives (Fails (length (text_of c.old))) (λ _. rest c.new) result (spec.word_at word.now (length (text_of c.old)) (rest c.old)) }
    ensures text { text_of c.new ≡ text_of c.old }
    ensures shorter { OnOk result (length (rest c.new) < length (rest c.old)) }
{
    if !has_word(c, word) {
        return Err(refused(c));
    }
    skip_identifier(c);
    Ok(())
}

/// Whether an identifier is no word of the language.
fn is_name(run: &[u8]) -> bool
    ensures value { result ≡ spec.is_name run.now }
    ensures some { IsTrue result → 0 < length run.now }
{
    !run.is_empty() && word_of(run).is_none()
}

/// Whether a name comes next, or a backslash, with which an escaped one begins.
#[tactic(auto, unfolding(crate::specs::Names::begins_name))]
pub fn begins_name(c: &Cursor<'_>) -> bool
    ensures { result ≡ spec.begins_name (rest c.now) }
{
    is_next(c, b'\\') || is_name(identifier(c))
}

fn graphic_len(text: &[u8]) -> usize
    ensures value { result ≡ prefix_len is_ascii_graphic text.now }
    ensures within { result ≤ length text.now }
{
    text.iter()
        .take_while(|byte| byte.is_ascii_graphic())
        .count()
}

/// Takes an escaped name from its backslash on.
#[tactic(auto, unfolding(crate::specs::Names::escaped_at))]
fn take_escaped<'a>(c: &mut Cursor<'a>) -> Result<&'a [u8], SyntaxFault>
    requires { 0 < length (rest c.old) }
    ensures value { Reads c.old c.new Fails (λ n. n.now) result spec.escaped_at }
    ensures text { text_of c.new ≡ text_of c.old }
    ensures shorter { OnOk result (length (rest c.new) < length (rest c.old)) }
{
    let text = c.rest();
    let name = after(text, 1);
    let len = graphic_len(name);
    if len == 0 || !byte_at(text, len + 1).is_ascii_whitespace() {
        return Err(refused(c));
    }
    c.skip(len + 1);
    skip_blanks(c, false);
    Ok(upto(name, len))
}

/// Takes a name, without the backslash of an escaped one.
#[tactic(auto, unfolding(crate::specs::Names::name_at))]
pub fn take_name<'a>(c: &mut Cursor<'a>) -> Result<&'a [u8], SyntaxFault>
    ensures value { Reads c.old c.new Fails (λ n. n.now) result spec.name_at }
    ensures text { text_of c.new ≡ text_of c.old }
    ensures shorter { OnOk result (length (rest c.new) < length (rest c.old)) }
{
    if is_next(c, b'\\') {
        return take_escaped(c);
    }
    let run = identifier(c);
    if !is_name(run) {
        return Err(refused(c));
    }
    skip_identifier(c);
    Ok(run)
}
