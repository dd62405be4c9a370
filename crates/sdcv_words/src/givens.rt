//! Looking up the texts of arguments.
ghost use Rattle.std.specs.Prelude.{◌≡◌, Some, codes, map};
ghost use Rattle.std.specs.Option.{option_map};
ghost use Rattle.clap_words.specs.Readings.{seen_given};
ghost use Rattle.texts.specs.Lookups.{in_table};
ghost use Rattle.sdcv_words.specs.Givens.{stands};

use clap_words::Given;

/// The text of an argument, if it has one.
pub fn text_of<'a>(given: &[Given<'a>], id: &str) -> Option<&'a str>
    ensures { option_map (λ text. text.now) result ≡ in_table (map seen_given given.now) id.now }
{
    for one in given {
        if id == one.id {
            return Some(one.text);
        }
    }
    None
}

/// Whether a flag stands.
pub fn stands(given: &[Given<'_>], id: &str) -> bool
    ensures { result ≡ stands (map seen_given given.now) id.now }
{
    match text_of(given, id) {
        Some(text) => text == "true",
        None => false,
    }
}
