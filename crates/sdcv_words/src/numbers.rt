//! Numbers among the words.
ghost use Rattle.std.specs.Prelude.{◌≡◌, Some};
ghost use Rattle.std.specs.Option.{option_map};
ghost use Rattle.sdcv_words.specs.Numbers.{number_in, number_or};

use sdcv_base::read_decimal;

/// The number of these digits, if it lies in the range.
pub fn number_in(text: &str, least: u64, most: u64) -> Option<u64>
    ensures { result ≡ number_in least most text.now }
{
    let value = read_decimal(text.as_bytes(), most)?;
    if least <= value { Some(value) } else { None }
}

/// The same of a text that may be left out.
pub fn number_or(text: Option<&str>, default: u64, least: u64, most: u64) -> Option<u64>
    ensures { result ≡ number_or default least most (option_map (λ t. t.now) text.entry) }
{
    match text {
        Some(digits) => number_in(digits, least, most),
        None => Some(default),
    }
}
