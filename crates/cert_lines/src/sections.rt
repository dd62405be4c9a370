//! The first line of a pair, and the last line.
ghost use Rattle.std.specs.Prelude.{◌≡◌, ◌≢◌, ◌++◌, ◌↔◌, ℕ, List, false, IfOk, IfErr, OnOk, IsTrue, MatchOption};
ghost use Rattle.cert_words.specs.Lines.{Spells, IsLineStop};
ghost use Rattle.cert_words.specs.Parts.{one, Passes, IsPartStop};
ghost use Rattle.cert_lines.specs.Kinds.{section_words, IsSection};
ghost use Rattle.cert_lines.specs.SectionWords.{pair_or_end, IsFirstWord, proof_word, IsProofWord, IsAny, how_words, IsHow, section_of};

use cert_words::{NextWord, Stop, Words, cut_off, take_end, take_number};

/// The greatest number of a pair.
const MOST: u64 = 9_223_372_036_854_775_807;

/// The greatest depth of a pair.
const MOST_DEPTH: u64 = 64;

/// What a line between the kept clauses and the end may begin: the pair of a number, by how it is proved, or the end.
#[derive(Clone, Copy, Debug, PartialEq, Eq)]
pub enum Section {
    Single(u64),
    Fixed(u64),
    /// The pair of a number, at a depth.
    Depth(u64, usize),
    End,
}

/// The word that says how a pair is proved.
#[derive(Clone, Copy)]
enum ProofWord {
    Single,
    Fixed,
    Depth,
}

/// How a pair is proved.
#[derive(Clone, Copy)]
enum How {
    Single,
    Fixed,
    Depth(usize),
}

/// Whether these bytes are the beginning of a word.
pub(crate) fn is_front(front: &[u8], word: &[u8]) -> bool
    ensures { IsTrue result ↔ ((more : List ℕ) × (front.now ++ more ≡ word.now)) }
{
    word.strip_prefix(front).is_some()
}

fn may_be_first(word: &[u8]) -> bool
    ensures { IsTrue result ↔ ((more : List ℕ) × IsFirstWord (word.now ++ more)) }
{
    is_front(word, b"pair") || is_front(word, b"end")
}

/// Passes `pair` or `end`; the answer is whether it is `pair`.
fn take_first(words: &mut Words<'_>) -> Result<bool, Stop>
    ensures ok { IfOk result (λ pair. Passes (one pair_or_end pair) words.old words.new) }
    ensures err { IfErr result (IsPartStop IsAny (one pair_or_end) words.old) }
    ensures told { IfErr result (λ e. e ≢ Stop.Memory) }
{
    match words.next() {
        NextWord::Missing => Err(Stop::Bad),
        NextWord::Cut(word) => Err(cut_off(may_be_first(word))),
        NextWord::Whole(word) => match is_pair(word) {
            Some(pair) => Ok(pair),
            None => Err(Stop::Bad),
        },
    }
}

/// Whether the word is `pair`, where it is that or `end`.
fn is_pair(word: &[u8]) -> Option<bool>
    ensures { MatchOption result (¬ IsFirstWord word.now) (λ pair. word.now ≡ pair_or_end pair) }
{
    if word == b"pair".as_slice() {
        return Some(true);
    }
    if word == b"end".as_slice() {
        return Some(false);
    }
    None
}

fn proof_word_of(word: &[u8]) -> Option<ProofWord>
    ensures { MatchOption result (¬ IsProofWord word.now) (λ k. word.now ≡ proof_word k) }
{
    if word == b"single".as_slice() {
        return Some(ProofWord::Single);
    }
    if word == b"fixed".as_slice() {
        return Some(ProofWord::Fixed);
    }
    if word == b"depth".as_slice() {
        return Some(ProofWord::Depth);
    }
    None
}

fn may_be_proof_word(word: &[u8]) -> bool
    ensures { IsTrue result ↔ ((more : List ℕ) × IsProofWord (word.now ++ more)) }
{
    is_front(word, b"single") || is_front(word, b"fixed") || is_front(word, b"depth")
}

/// Passes the word that says how a pair is proved.
fn take_proof_word(words: &mut Words<'_>) -> Result<ProofWord, Stop>
    ensures ok { IfOk result (λ k. Passes (one proof_word k) words.old words.new) }
    ensures err { IfErr result (IsPartStop IsAny (one proof_word) words.old) }
    ensures told { IfErr result (λ e. e ≢ Stop.Memory) }
{
    match words.next() {
        NextWord::Missing => Err(Stop::Bad),
        NextWord::Cut(word) => Err(cut_off(may_be_proof_word(word))),
        NextWord::Whole(word) => match proof_word_of(word) {
            Some(kind) => Ok(kind),
            None => Err(Stop::Bad),
        },
    }
}

/// Passes what says how a pair is proved.
fn take_how(words: &mut Words<'_>) -> Result<How, Stop>
    ensures ok { IfOk result (λ how. IsHow how × Passes (how_words how) words.old words.new) }
    ensures err { IfErr result (IsPartStop IsHow how_words words.old) }
    ensures told { IfErr result (λ e. e ≢ Stop.Memory) }
{
    match take_proof_word(words)? {
        ProofWord::Single => Ok(How::Single),
        ProofWord::Fixed => Ok(How::Fixed),
        ProofWord::Depth => {
            let depth = take_number(words, MOST_DEPTH)?;
            Ok(How::Depth(depth as usize))
        }
    }
}

/// The pair of a number.
fn section_of(number: u64, how: How) -> Section
    ensures { result ≡ section_of number how }
{
    match how {
        How::Single => Section::Single(number),
        How::Fixed => Section::Fixed(number),
        How::Depth(depth) => Section::Depth(number, depth),
    }
}

/// The section that a line begins.
pub fn read_section(line: &[u8], cut: bool) -> Result<Section, Stop>
    ensures ok { IfOk result (Spells IsSection section_words line.now) }
    ensures whole { OnOk result (cut ≡ false) }
    ensures err { IfErr result (IsLineStop IsSection section_words cut line.now) }
    ensures told { IfErr result (λ e. e ≢ Stop.Memory) }
{
    let mut words = Words::new(line, cut);
    if !take_first(&mut words)? {
        take_end(&words)?;
        return Ok(Section::End);
    }
    let number = take_number(&mut words, MOST)?;
    let how = take_how(&mut words)?;
    take_end(&words)?;
    Ok(section_of(number, how))
}
