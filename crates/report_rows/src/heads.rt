//! The first line of a report.
ghost use Rattle.std.specs.Prelude.{◌≡◌};
ghost use Rattle.std.specs.Option.{option_map};
ghost use Rattle.report_rows.specs.Words.{texts};
ghost use Rattle.report_rows.specs.Tellings.{tells_cuts, tells_holds};
ghost use Rattle.report_rows.specs.Heads as spec;

use crate::cuts::{is_word, number_at, rest_from, word_at};
use crate::reports::Report;
use crate::verdicts::hazard_in;
use sdcv_base::Seq;
use std::alloc::Global;

/// What the first line says: the mode, the cycles of reset, the lag, whether hold sides are judged, and what else is asked for.
#[derive(Clone, Copy)]
pub struct Head {
    pub hazard: bool,
    pub reset: u64,
    pub lag: u64,
    pub hold: bool,
    pub asked: Asked,
}

/// How many clauses were given to be tried, how many nets were free, how many case analyses were assumed, and whether the script
/// was judged as for a sign-off.
#[derive(Clone, Copy)]
pub struct Asked {
    pub assist: Option<u64>,
    pub free: Option<u64>,
    pub assumed: Option<u64>,
    pub strict: bool,
}

impl Head {
    /// Whether the report says which cells are cut out.
    pub fn tells_cuts(&self) -> bool
        ensures { result ≡ tells_cuts self.now }
    {
        self.asked.free.is_some()
    }

    /// Whether the report says of how many false paths the hold side is not judged.
    pub fn tells_holds(&self) -> bool
        ensures { result ≡ tells_holds self.now }
    {
        self.asked.strict && !self.hold
    }

    /// The report that has no row yet.
    pub fn report(&self, alloc: Global) -> Report
        ensures { result ≡ spec.rowless self.now }
    {
        Report {
            head: *self,
            told: Seq::new(alloc),
            script: Seq::new(alloc),
            pairs: Seq::new(alloc),
        }
    }
}

// The number that follows a word, where the words begin with it.
fn number_after(words: &[&[u8]], word: &[u8]) -> Option<Option<u64>>
    ensures { result ≡ spec.number_after (texts words.now) word.now }
{
    if is_word(words, 0, word) {
        Some(Some(number_at(words, 1)?))
    } else {
        Some(None)
    }
}

// What is left after a word and its number, where the words begin with it.
fn past_number<'s, 'a>(words: &'s [&'a [u8]], word: &[u8]) -> &'s [&'a [u8]]
    ensures { texts result.now ≡ spec.past_number (texts words.now) word.now }
{
    if is_word(words, 0, word) {
        rest_from(words, 2)
    } else {
        words
    }
}

// What is left after a word, where the words begin with it.
fn past_word<'s, 'a>(words: &'s [&'a [u8]], word: &[u8]) -> &'s [&'a [u8]]
    ensures { texts result.now ≡ spec.past_word (texts words.now) word.now }
{
    if is_word(words, 0, word) {
        rest_from(words, 1)
    } else {
        words
    }
}

// The lag, where the words begin with one.
fn lag_after(words: &[&[u8]]) -> Option<u64>
    ensures { result ≡ spec.lag_after (texts words.now) }
{
    if is_word(words, 0, b"lag") {
        number_at(words, 1)
    } else {
        Some(0)
    }
}

// What the last words of the line ask for.
#[tactic(auto, unfolding(crate::specs::Heads::asked_last))]
fn asked_last(words: &[&[u8]]) -> Option<Asked>
    ensures { result ≡ spec.asked_last (texts words.now) }
{
    let after_assist = past_number(words, b"assist");
    let after_free = past_number(after_assist, b"free");
    let after_assumed = past_number(after_free, b"assumed");
    let assist = number_after(words, b"assist")?;
    let free = number_after(after_assist, b"free")?;
    let assumed = number_after(after_free, b"assumed")?;
    let strict = is_word(after_assumed, 0, b"strict");
    if past_word(after_assumed, b"strict").is_empty() {
        Some(Asked {
            assist,
            free,
            assumed,
            strict,
        })
    } else {
        None
    }
}

fn begins_report(words: &[&[u8]]) -> bool
    ensures { result ≡ spec.begins_report (texts words.now) }
{
    12 <= words.len()
        && is_word(words, 0, b"sdcv")
        && is_word(words, 1, b"1")
        && is_word(words, 2, b"mode")
        && is_word(words, 4, b"reset")
}

/// What the words of the first line say.
#[tactic(auto, unfolding(crate::specs::Heads::head_of))]
pub(crate) fn head_of(words: &[&[u8]]) -> Option<Head>
    ensures { result ≡ spec.head_of (texts words.now) }
{
    if !begins_report(words) {
        return None;
    }
    let hazard = hazard_in(word_at(words, 3))?;
    let reset = number_at(words, 5)?;
    let more = rest_from(words, 12);
    let lag = lag_after(more)?;
    let after_lag = past_number(more, b"lag");
    let hold = is_word(after_lag, 0, b"hold");
    let asked = asked_last(past_word(after_lag, b"hold"))?;
    Some(Head {
        hazard,
        reset,
        lag,
        hold,
        asked,
    })
}
