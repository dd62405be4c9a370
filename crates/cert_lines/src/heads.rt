//! The first line, the line of kept clauses, and the first line of a derivation.
ghost use Rattle.std.specs.Prelude.{◌≡◌, ◌≢◌, ◌↔◌, ◌++◌, ◌∷◌, [], ◌<◌, ℕ, List, false, IfOk, IfErr, OnOk, IsTrue, MatchOption};
ghost use Rattle.std.specs.Fmt.{decimal};
ghost use Rattle.cert_words.specs.Lines.{Spells, IsLineStop};
ghost use Rattle.cert_words.specs.Parts.{one, Passes, IsPartStop};
ghost use Rattle.cert_lines.specs.Kinds.{first_words, IsVersion, inv_words, IsInvHead, phase_word, head_words, IsCount};
ghost use Rattle.cert_lines.specs.SectionWords.{IsVersionWord};

use cert_words::{NextWord, Stop, Words, cut_off, take_end, take_number, take_word};
use net_model::Phase;

/// The greatest number of steps, and of kept clauses.
const MOST: u64 = 9_223_372_036_854_775_807;

/// The greatest depth of kept clauses.
const MOST_KEPT_DEPTH: u64 = 8;

/// The depth of the kept clauses, and how many there are.
#[derive(Clone, Copy, Debug, PartialEq, Eq)]
pub struct InvHead {
    pub depth: usize,
    pub count: u64,
}

/// The version that the word spells.
fn version_of(word: &[u8]) -> Option<u64>
    ensures { MatchOption result (¬ IsVersionWord word.now) (λ v. IsVersion v × (word.now ≡ decimal v)) }
{
    if word == b"1".as_slice() {
        return Some(1);
    }
    if word == b"2".as_slice() {
        return Some(2);
    }
    if word == b"3".as_slice() {
        return Some(3);
    }
    None
}

/// Whether a word can go on to that of a version, which has one digit.
fn may_be_version(word: &[u8]) -> bool
    ensures { IsTrue result ↔ ((more : List ℕ) × IsVersionWord (word.now ++ more)) }
{
    word.is_empty() || version_of(word).is_some()
}

/// Passes the number of a version.
fn take_version(words: &mut Words<'_>) -> Result<u64, Stop>
    ensures ok { IfOk result (λ v. IsVersion v × Passes (one decimal v) words.old words.new) }
    ensures err { IfErr result (IsPartStop IsVersion (one decimal) words.old) }
    ensures told { IfErr result (λ e. e ≢ Stop.Memory) }
{
    match words.next() {
        NextWord::Missing => Err(Stop::Bad),
        NextWord::Cut(word) => Err(cut_off(may_be_version(word))),
        NextWord::Whole(word) => match version_of(word) {
            Some(version) => Ok(version),
            None => Err(Stop::Bad),
        },
    }
}

/// The version of a first line.
pub fn read_first(line: &[u8], cut: bool) -> Result<u64, Stop>
    ensures ok { IfOk result (Spells IsVersion first_words line.now) }
    ensures whole { OnOk result (cut ≡ false) }
    ensures err { IfErr result (IsLineStop IsVersion first_words cut line.now) }
    ensures told { IfErr result (λ e. e ≢ Stop.Memory) }
{
    let mut words = Words::new(line, cut);
    take_word(&mut words, b"sdcv-cert")?;
    let version = take_version(&mut words)?;
    take_end(&words)?;
    Ok(version)
}

/// How many clauses may be kept at most at a depth.
fn most_kept(depth: u64) -> u64
    ensures none { depth ≡ 0 → result ≡ 0 }
    ensures some { 0 < depth → result ≡ 9223372036854775807 }
{
    if depth == 0 { 0 } else { MOST }
}

/// The line of kept clauses.
pub fn read_inv(line: &[u8], cut: bool) -> Result<InvHead, Stop>
    ensures ok { IfOk result (Spells IsInvHead inv_words line.now) }
    ensures whole { OnOk result (cut ≡ false) }
    ensures err { IfErr result (IsLineStop IsInvHead inv_words cut line.now) }
    ensures told { IfErr result (λ e. e ≢ Stop.Memory) }
{
    let mut words = Words::new(line, cut);
    take_word(&mut words, b"inv")?;
    let depth = take_number(&mut words, MOST_KEPT_DEPTH)?;
    let count = take_number(&mut words, most_kept(depth))?;
    take_end(&words)?;
    Ok(InvHead {
        depth: depth as usize,
        count,
    })
}

/// Passes the word of a derivation.
fn take_phase(words: &mut Words<'_>, phase: Phase) -> Result<(), Stop>
    ensures ok { OnOk result (Passes (phase_word phase ∷ []) words.old words.new) }
    ensures err { IfErr result (IsPartStop (λ w. w ≡ phase_word phase) (one (λ w. w)) words.old) }
    ensures told { IfErr result (λ e. e ≢ Stop.Memory) }
{
    match phase {
        Phase::Base => take_word(words, b"b"),
        Phase::Step => take_word(words, b"i"),
    }
}

/// How many steps a derivation has, by its first line.
pub fn read_head(phase: Phase, line: &[u8], cut: bool) -> Result<u64, Stop>
    ensures ok { IfOk result (Spells IsCount (head_words phase) line.now) }
    ensures whole { OnOk result (cut ≡ false) }
    ensures err { IfErr result (IsLineStop IsCount (head_words phase) cut line.now) }
    ensures told { IfErr result (λ e. e ≢ Stop.Memory) }
{
    let mut words = Words::new(line, cut);
    take_phase(&mut words, phase)?;
    let count = take_number(&mut words, MOST)?;
    take_end(&words)?;
    Ok(count)
}
