//! The words of an option, of an exception and of a warning.
ghost use Rattle.std.specs.Prelude.{◌≡◌, IfOk, string_bytes};
ghost use Rattle.report_text.specs.Words.{mode_text, lag_text, number_text, flag_text, asked_text};
ghost use Rattle.report_text.specs.Words.{kind_text, edge_text, words_of, claim_text, what_text, count_text, warning_text};

use net_model::Claim;
use run_options::RunOptions;
use sdcv_base::{Edge, Kind};
use selected_types::{Listing, Warning};
use std::alloc::{AllocError, Global};

/// Whether glitches count.
pub fn mode_text(hazard: bool) -> &'static str
    ensures { result.now ≡ mode_text hazard }
{
    if hazard { "hazard" } else { "plain" }
}

// At how many captures more than the first a false path is judged, where it is at any.
fn lag_text(alloc: Global, lag: u8) -> Result<String, AllocError>
    ensures { IfOk result (λ text. string_bytes text ≡ lag_text lag) }
{
    if lag == 0 {
        Ok(String::new(alloc))
    } else {
        format!(in alloc; " lag {lag}")
    }
}

/// A word with its number and a space before each, where it has a number; else nothing.
pub fn number_text(alloc: Global, word: &str, number: Option<u64>) -> Result<String, AllocError>
    ensures { IfOk result (λ text. string_bytes text ≡ number_text word.now number) }
{
    match number {
        Some(number) => format!(in alloc; " {word} {number}"),
        None => Ok(String::new(alloc)),
    }
}

/// A word, where it stands.
pub(crate) fn flag_text(word: &'static str, stands: bool) -> &'static str
    ensures { result.now ≡ flag_text word.now stands }
{
    if stands { word } else { "" }
}

/// What stands only where it is asked for, each with a space before it.
pub fn asked_text(alloc: Global, options: &RunOptions) -> Result<String, AllocError>
    ensures { IfOk result (λ text. string_bytes text ≡ asked_text options.now) }
{
    let lag = lag_text(alloc, options.lag)?;
    let hold = flag_text(" hold", options.hold);
    let assist = number_text(alloc, "assist", options.assist)?;
    let free = number_text(alloc, "free", options.free)?;
    let assumed = number_text(alloc, "assumed", options.assumed)?;
    let strict = flag_text(" strict", options.strict);
    format!(in alloc; "{lag}{hold}{assist}{free}{assumed}{strict}")
}

// The kind of an exception, with its multiplier.
fn kind_text(alloc: Global, kind: Kind) -> Result<String, AllocError>
    ensures { IfOk result (λ text. string_bytes text ≡ kind_text kind) }
{
    match kind {
        Kind::False => String::from_str(alloc, "false"),
        Kind::Multi(multiplier) => format!(in alloc; "multi {multiplier}"),
    }
}

// Which change of the start counts, where it is not each.
fn edge_text(edge: Edge) -> &'static str
    ensures { result.now ≡ edge_text edge }
{
    match edge {
        Edge::Any => "",
        Edge::Rise => " rise",
        Edge::Fall => " fall",
    }
}

// What is claimed: the kind, whether it is the hold side (`early`), and which change of the start counts.
fn words_of(alloc: Global, kind: Kind, early: bool, edge: Edge) -> Result<String, AllocError>
    ensures { IfOk result (λ text. string_bytes text ≡ words_of kind early edge) }
{
    let kind = kind_text(alloc, kind)?;
    let side = flag_text(" hold", early);
    let edge = edge_text(edge);
    format!(in alloc; "{kind}{side}{edge}")
}

/// What is claimed of a pair: the kind, with its multiplier, whether it is the hold side, and which change of the start counts.
pub fn claim_text(alloc: Global, claim: &Claim) -> Result<String, AllocError>
    ensures { IfOk result (λ text. string_bytes text ≡ claim_text claim.now) }
{
    words_of(alloc, claim.kind, claim.early, claim.edge)
}

/// What an exception does.
pub fn what_text(alloc: Global, listing: &Listing) -> Result<String, AllocError>
    ensures { IfOk result (λ text. string_bytes text ≡ what_text listing.now) }
{
    match listing {
        Listing::Claiming(kind, edge, _pairs) => words_of(alloc, *kind, false, *edge),
        Listing::Hold => String::from_str(alloc, "hold"),
        Listing::Aside(option) => format!(in alloc; "aside {option}"),
        Listing::HoldSide(edge, _pairs) => words_of(alloc, Kind::False, true, *edge),
    }
}

/// How many pairs it claims something of, where it claims something.
pub(crate) fn count_text(alloc: Global, listing: &Listing) -> Result<String, AllocError>
    ensures { IfOk result (λ text. string_bytes text ≡ count_text listing.now) }
{
    match listing {
        Listing::Claiming(_, _, pairs) | Listing::HoldSide(_, pairs) => {
            format!(in alloc; " pairs {pairs}")
        }
        Listing::Hold | Listing::Aside(_) => Ok(String::new(alloc)),
    }
}

/// What a warning says of a pattern, or of the lists of an exception.
pub fn warning_text(alloc: Global, warning: &Warning) -> Result<String, AllocError>
    ensures { IfOk result (λ text. string_bytes text ≡ warning_text warning.now) }
{
    match warning {
        Warning::Nothing(pattern) => format!(in alloc; "nothing {pattern}"),
        Warning::Dropped(pattern, count) => format!(in alloc; "dropped {pattern} {count}"),
        Warning::Several(pattern) => format!(in alloc; "several {pattern}"),
        Warning::Crossed(count) => format!(in alloc; "crossed {count}"),
        Warning::Beyond(count) => format!(in alloc; "beyond {count}"),
    }
}
