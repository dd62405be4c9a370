//! The list of values for ports.
ghost use Rattle.std.specs.Prelude.{◌≡◌, ◌==◌, IfOk, Some, map};
ghost use Rattle.std.specs.List.{slice_split};
ghost use Rattle.sdcv_words.specs.Givens.{when};
ghost use Rattle.std.specs.Option.{option_map};
ghost use Rattle.sdcv_words.specs.Settings.{has_name, seen_part, setting_in, settings_of, with_part};

use sdcv_base::{Name, Seq, Setting};
use std::alloc::{AllocError, Global};

/// A name and a value, as a part of a list spells them.
#[derive(Clone, Copy)]
pub struct Part<'a> {
    pub name: &'a [u8],
    pub value: bool,
}

// The part `NAME=0` or `NAME=1`; the value is what follows the last `=`.
fn setting_in(text: &[u8]) -> Option<Part<'_>>
    ensures { option_map seen_part result ≡ setting_in text.now }
{
    if text.len() <= 2 {
        return None;
    }
    let (name, end) = text.split_at(text.len() - 2);
    if end == b"=0".as_slice() {
        Some(Part { name, value: false })
    } else if end == b"=1".as_slice() {
        Some(Part { name, value: true })
    } else {
        None
    }
}

// Whether one of the settings has this name.
fn has_name(settings: &Seq<Setting>, name: &[u8]) -> bool
    ensures { result ≡ has_name name.now settings.now }
{
    settings
        .as_slice()
        .iter()
        .any(|setting| setting.name.as_bytes() == name)
}

/// The parts of a text between its commas.
pub fn parts<'a>(alloc: Global, text: &'a str) -> Result<Vec<&'a str>, AllocError>
    ensures { IfOk result (λ all. map (λ part. part.now) all.items ≡ slice_split (λ b. b == 44) text.entry.now) }
{
    text.split(',').collect(alloc)
}

// Puts the setting of a part last; answers whether the part spells one, whose name no other has.
fn add_part(alloc: Global, settings: &mut Seq<Setting>, text: &[u8]) -> Result<bool, AllocError>
    ensures { IfOk result (λ fits. when fits settings.new ≡ with_part settings.old text.now) }
{
    let Some(part) = setting_in(text) else {
        return Ok(false);
    };
    if has_name(settings, part.name) {
        return Ok(false);
    }
    let name = Name::new(alloc, part.name)?;
    settings.push(Setting {
        name,
        value: part.value,
    })?;
    Ok(true)
}

/// The settings that a list spells, if no two of them have one name.
pub fn settings_of(alloc: Global, text: &str) -> Result<Option<Seq<Setting>>, AllocError>
    ensures { IfOk result (λ found. found ≡ settings_of text.now) }
{
    let parts = parts(alloc, text)?;
    let mut settings = Seq::new(alloc);
    for part in &parts {
        if !add_part(alloc, &mut settings, part.as_bytes())? {
            return Ok(None);
        }
    }
    Ok(Some(settings))
}
