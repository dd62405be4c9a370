//! How the netlist is read, by a list of patterns of references, the name of the clock that is judged, and that of the top module.
ghost use Rattle.std.specs.Prelude.{◌≡◌, ◌==◌, IfOk, Some, map};
ghost use Rattle.std.specs.List.{list_all, slice_split};
ghost use Rattle.std.specs.Option.{option_map};
ghost use Rattle.sdcv_words.specs.Cuttings.{free_of, has_text, name_of, netlist_by, patterns_of, wide_by};

use crate::places::is_value;
use crate::settings::parts;
use crate::skips::names_of;
use run_options::{Cutting, NetlistForm};
use sdcv_base::{Name, Seq};
use std::alloc::{AllocError, Global};

fn has_text(part: &str) -> bool
    ensures { result ≡ has_text part.now }
{
    !part.is_empty()
}

fn all_have_text(parts: &[&str]) -> bool
    ensures { result ≡ list_all (λ part. has_text part.now) parts.now }
{
    parts.iter().all(|part| has_text(part))
}

// Whether none of the parts is empty.
fn none_is_empty(parts: &[&str]) -> bool
    ensures { result ≡ list_all has_text (map (λ part. part.now) parts.now) }
{
    all_have_text(parts)
}

/// The patterns that a list spells, if it can stand for a value and none of them is empty.
#[tactic(auto, unfolding(crate::specs::Cuttings::patterns_of))]
pub fn patterns_of(alloc: Global, text: &str) -> Result<Option<Seq<Name>>, AllocError>
    ensures { IfOk result (λ found. found ≡ patterns_of text.now) }
{
    let parts = parts(alloc, text)?;
    if !is_value(text) || !none_is_empty(&parts) {
        return Ok(None);
    }
    Ok(Some(names_of(alloc, &parts)?))
}

// The patterns of what may be cut out.
fn free_of(alloc: Global, list: Option<&str>) -> Result<Option<Seq<Name>>, AllocError>
    ensures { IfOk result (λ found. found ≡ free_of (option_map (λ t. t.now) list.entry)) }
{
    match list {
        Some(text) => patterns_of(alloc, text),
        None => Ok(Some(Seq::new(alloc))),
    }
}

/// The name of a clock or a module, if a text gives one and can stand for a value.
pub fn name_of(alloc: Global, name: Option<&str>) -> Result<Option<Option<Name>>, AllocError>
    ensures { IfOk result (λ found. found ≡ name_of (option_map (λ t. t.now) name.entry)) }
{
    match name {
        Some(text) if is_value(text) => Ok(Some(Some(Name::new(alloc, text.as_bytes())?))),
        Some(_) => Ok(None),
        None => Ok(Some(None)),
    }
}

// Wide, with these texts.
fn wide_by(
    alloc: Global,
    list: Option<&str>,
    clock: Option<&str>,
    top: Option<&str>,
) -> Result<Option<NetlistForm>, AllocError>
    ensures { IfOk result (λ found.
        found ≡ wide_by (option_map (λ t. t.now) list.entry) (option_map (λ t. t.now) clock.entry) (option_map (λ t. t.now) top.entry)) }
{
    let Some(free) = free_of(alloc, list)? else {
        return Ok(None);
    };
    let Some(clock) = name_of(alloc, clock)? else {
        return Ok(None);
    };
    let Some(top) = name_of(alloc, top)? else {
        return Ok(None);
    };
    Ok(Some(NetlistForm::Wide(Cutting { top, free, clock })))
}

/// How the netlist is read: wide where a list of patterns, or the name of a clock or a top module stands, if these keep their
/// rules.
pub fn netlist_by(
    alloc: Global,
    list: Option<&str>,
    clock: Option<&str>,
    top: Option<&str>,
) -> Result<Option<NetlistForm>, AllocError>
    ensures { IfOk result (λ found.
        found ≡ netlist_by (option_map (λ t. t.now) list.entry) (option_map (λ t. t.now) clock.entry) (option_map (λ t. t.now) top.entry)) }
{
    match (list, clock, top) {
        (None, None, None) => Ok(Some(NetlistForm::Narrow)),
        _ => wide_by(alloc, list, clock, top),
    }
}
