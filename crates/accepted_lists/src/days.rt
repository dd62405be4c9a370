//! Days, as YYYY-MM-DD.
ghost use Rattle.std.specs.Prelude.{◌≡◌, IfOk, length, string_bytes};
ghost use Rattle.accepted_lists.specs.Days as spec;

use crate::cuts::number_in;
use std::alloc::{AllocError, Global};
use texts::{after, byte_at, upto};

/// A day of the Gregorian calendar.
#[derive(Clone, Copy, Debug, Drop, PartialEq, Eq)]
pub struct Day {
    pub year: u64,
    /// From 1.
    pub month: u64,
    /// From 1.
    pub date: u64,
}

fn is_leap(year: u64) -> bool
    ensures { result ≡ spec.is_leap year }
{
    (year % 4 == 0 && year % 100 != 0) || year % 400 == 0
}

fn days_in(year: u64, month: u64) -> u64
    ensures { result ≡ spec.days_in year month }
{
    if month == 2 {
        if is_leap(year) { 29 } else { 28 }
    } else if month == 4 || month == 6 || month == 9 || month == 11 {
        30
    } else {
        31
    }
}

impl Day {
    /// The word that it is.
    pub fn text(&self, alloc: Global) -> Result<String, AllocError>
        ensures { IfOk result (λ text. string_bytes text ≡ spec.day_text self.now) }
    {
        let Day { year, month, date } = *self;
        let (a, b, c, d) = (year / 1000, year / 100 % 10, year / 10 % 10, year % 10);
        let (e, f, g, h) = (month / 10, month % 10, date / 10, date % 10);
        format!(in alloc; "{a}{b}{c}{d}-{e}{f}-{g}{h}")
    }
}

// Whether the calendar has the day.
fn is_day(day: &Day) -> bool
    ensures { result ≡ spec.is_day day.now }
{
    let Day { year, month, date } = *day;
    1 <= month && month <= 12 && 1 <= date && date <= days_in(year, month)
}

fn has_dashes(word: &[u8]) -> bool
    ensures { result ≡ spec.has_dashes word.now }
{
    byte_at(word, 4) == b'-' && byte_at(word, 7) == b'-'
}

// The three numbers of a word of ten bytes.
#[tactic(auto, unfolding(crate::specs::Days::numbers_in))]
fn numbers_in(word: &[u8]) -> Option<Day>
    requires { length word.now ≡ 10 }
    ensures { result ≡ spec.numbers_in word.now }
{
    let year = number_in(upto(word, 4))?;
    let month = number_in(upto(after(word, 5), 2))?;
    let date = number_in(after(word, 8))?;
    Some(Day { year, month, date })
}

/// The day that a word is: four digits of the year, `-`, two of the month, `-`, two of the day, and the calendar has it.
pub fn day_of(word: &[u8]) -> Option<Day>
    ensures { result ≡ spec.day_of word.now }
{
    if word.len() != 10 {
        return None;
    }
    if !has_dashes(word) {
        return None;
    }
    let day = numbers_in(word)?;
    if is_day(&day) { Some(day) } else { None }
}

fn is_before(day: &Day, other: &Day) -> bool
    ensures { result ≡ spec.is_before day.now other.now }
{
    day.year < other.year
        || (day.year == other.year
            && (day.month < other.month || (day.month == other.month && day.date < other.date)))
}

/// Whether the last day of an entry is over today. Without a last day, or where no day is given, nothing is.
pub fn is_over(today: Option<Day>, last: Option<Day>) -> bool
    ensures { result ≡ spec.is_over today last }
{
    match (today, last) {
        (Some(today), Some(last)) => is_before(&last, &today),
        _ => false,
    }
}
