//! Numbers and literals as words.
ghost use Rattle.std.specs.Prelude.{get_or, nat_lt, ◌&&◌, ◌==◌, length, ◌≡◌, ◌≢◌, ◌↔◌};
ghost use Rattle.std.specs.Prelude.{ℕ, ◌≤◌, ◌<◌, ◌^◌, IsTrue, MatchOption};
ghost use Rattle.std.specs.Fmt.{decimal};
ghost use Rattle.cert_words.specs.Numbers.{lit_word, IsLitAbove, IsGreatestWith, BeginsVar, BeginsLit, BeginsNumber};

use proof_log::Lit;
use sdcv_base::read_decimal;

/// The greatest variable.
const MOST_VAR: u64 = 2_147_483_647;

/// Whether more digits follow a leading 0.
fn has_leading_zero(word: &[u8]) -> bool
    ensures { result ≡ (nat_lt 1 (length word.now) && get_or word.now 0 0 == 48) }
{
    word.len() > 1 && word[0] == b'0'
}

/// The number of a word of digits without a leading zero, where it is at most `most`.
pub fn number_of(word: &[u8], most: u64) -> Option<u64>
    ensures { MatchOption result ((n : ℕ) → n ≤ most → word.now ≢ decimal n) (λ n. (word.now ≡ decimal n) × (n ≤ most)) }
{
    if has_leading_zero(word) {
        return None;
    }
    read_decimal(word, most)
}

/// The variable of a word of digits, where it is above another one.
fn var_of(digits: &[u8], above: u32) -> Option<u32>
    ensures { MatchOption result
        ((v : ℕ) → above < v → v < 2 ^ 31 → digits.now ≢ decimal v)
        (λ v. (digits.now ≡ decimal v) × (above < v) × (v < 2 ^ 31)) }
{
    let var = number_of(digits, MOST_VAR)?;
    if var <= u64::from(above) {
        return None;
    }
    Some(var as u32)
}

/// The literal of a word, where its variable is above another one.
pub fn lit_of(word: &[u8], above: u32) -> Option<Lit>
    ensures { MatchOption result ((l : ℕ) → IsLitAbove above l → word.now ≢ lit_word l) (λ l. (word.now ≡ lit_word l) × IsLitAbove above l) }
{
    match word.strip_prefix(b"-") {
        Some(digits) => Some(Lit::new(var_of(digits, above)?, false)),
        None => Some(Lit::new(var_of(word, above)?, true)),
    }
}

/// The greatest number below 2^31 whose digits begin with those of this one.
fn greatest_with(number: u64) -> u64
    requires some { 0 < number }
    requires few { number < 2 ^ 31 }
    ensures { IsGreatestWith number result }
{
    let mut low = number;
    let mut high = number;
    while low * 10 <= MOST_VAR {
        low *= 10;
        high = high * 10 + 9;
    }
    high.min(MOST_VAR)
}

/// Whether digits can go on to a variable above another one.
fn may_be_var(digits: &[u8], above: u32) -> bool
    ensures { IsTrue result ↔ BeginsVar above digits.now }
{
    if digits.is_empty() {
        return u64::from(above) < MOST_VAR;
    }
    match number_of(digits, MOST_VAR) {
        None => false,
        Some(number) => number > 0 && greatest_with(number) > u64::from(above),
    }
}

/// Whether a word can go on to a literal of a variable above another one.
pub fn may_be_lit(word: &[u8], above: u32) -> bool
    ensures { IsTrue result ↔ BeginsLit above word.now }
{
    match word.strip_prefix(b"-") {
        Some(digits) => may_be_var(digits, above),
        None => may_be_var(word, above),
    }
}

/// Whether a word can go on to a number that is at most so large.
pub fn may_be_number(word: &[u8], most: u64) -> bool
    ensures { IsTrue result ↔ BeginsNumber most word.now }
{
    word.is_empty() || number_of(word, most).is_some()
}
