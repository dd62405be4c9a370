//! The first lines of two reports.
ghost use Rattle.std.specs.Prelude.{◌≡◌, ◌++◌, IfOk, OnOk, string_bytes};
ghost use Rattle.report_groups.specs.Differences as spec;

use report_rows::Head;
use sdcv_base::{Name, Seq};
use std::alloc::{AllocError, Global};

// A word with its number, where it has one.
fn number_text(alloc: Global, word: &str, number: Option<u64>) -> Result<String, AllocError>
    ensures { IfOk result (λ text. string_bytes text ≡ spec.number_text word.now number) }
{
    match number {
        Some(number) => format!(in alloc; " {word} {number}"),
        None => Ok(String::new(alloc)),
    }
}

// A word, where it stands.
fn flag_text(word: &'static str, stands: bool) -> &'static str
    ensures { result.now ≡ spec.flag_text word.now stands }
{
    if stands { word } else { "" }
}

fn lag_text(alloc: Global, lag: u64) -> Result<String, AllocError>
    ensures { IfOk result (λ text. string_bytes text ≡ spec.lag_text lag) }
{
    if lag == 0 {
        Ok(String::new(alloc))
    } else {
        format!(in alloc; " lag {lag}")
    }
}

fn mode_text(hazard: bool) -> &'static str
    ensures { result.now ≡ spec.mode_text hazard }
{
    if hazard { "hazard" } else { "plain" }
}

// What is asked for beside the claims.
fn asked_text(alloc: Global, head: &Head) -> Result<String, AllocError>
    ensures { IfOk result (λ text. string_bytes text ≡ spec.asked_text head.now) }
{
    let hold = flag_text(" hold", head.hold);
    let assist = number_text(alloc, "assist", head.asked.assist)?;
    let free = number_text(alloc, "free", head.asked.free)?;
    let assumed = number_text(alloc, "assumed", head.asked.assumed)?;
    let strict = flag_text(" strict", head.asked.strict);
    format!(in alloc; "{hold}{assist}{free}{assumed}{strict}")
}

fn head_text(alloc: Global, head: &Head) -> Result<String, AllocError>
    ensures { IfOk result (λ text. string_bytes text ≡ spec.head_text head.now) }
{
    let mode = mode_text(head.hazard);
    let reset = head.reset;
    let lag = lag_text(alloc, head.lag)?;
    let asked = asked_text(alloc, head)?;
    format!(in alloc; "mode {mode} reset {reset}{lag}{asked}")
}

/// Adds both first lines, where they differ.
pub(crate) fn add_heads(
    alloc: Global,
    old: &Head,
    new: &Head,
    out: &mut Seq<Name>,
) -> Result<(), AllocError>
    ensures { OnOk result (out.new ≡ out.old ++ spec.head_lines old.now new.now) }
{
    let was = head_text(alloc, old)?;
    let is = head_text(alloc, new)?;
    if was.as_bytes() == is.as_bytes() {
        return Ok(());
    }
    let was = format!(in alloc; "was {was}")?;
    let is = format!(in alloc; "is {is}")?;
    out.push(Name::from_vec(was.into_bytes()))?;
    out.push(Name::from_vec(is.into_bytes()))?;
    Ok(())
}
