//! What a script selects in the design of a netlist: first each exception, then each pair.
ghost use Rattle.std.specs.Prelude.{◌≡◌, ◌≤◌, IfOk};
ghost use Rattle.cell_types.specs.Libraries.{IsLawful as IsLawfulLibrary};
ghost use Rattle.run_options.specs.Judging.{CanJudge};
ghost use Rattle.design_stages.specs.Designs.{AreLawful};

use crate::selections::push_selected;
use crate::sessions::Session;
use crate::steps::{number_of, word_after, word_at};
use cell_types::{Library, builtin};
use design_stages::{Designed, ReadTexts, Refusal, cells, constraints, designed, netlist};
use run_options::{Forms, Judging, NetlistForm, Reset, ScriptForm};
use sdcv_base::{Name, Seq, Setting};
use std::alloc::{AllocError, Global};

/// `select NETLIST CELLS SCRIPT`, where CELLS may be `builtin`, and then `reset NAME`, `lag N` and `judged hazard`: the lines of
/// what is selected, or of the refusal. A reset is active at 0 where its name ends with `_n`; no more than 8 of a lag count.
pub fn selected_text(session: &Session, words: &str) -> Result<String, AllocError> {
    let mut text = String::new(session.alloc());
    match found(session, words) {
        Ok(designed) => push_selected(&mut text, &designed.selected)?,
        Err(refusal) => push_refusal(&mut text, &refusal)?,
    }
    Ok(text)
}

/// The line of a refusal.
pub fn push_refusal(text: &mut String, refusal: &Refusal) -> Result<(), AllocError> {
    match refusal {
        Refusal::Line(line) => push_bytes(text, line),
        Refusal::Memory => Err(AllocError),
    }
}

fn push_bytes(text: &mut String, bytes: &[u8]) -> Result<(), AllocError> {
    for byte in bytes {
        text.push(char::from(*byte))?;
    }
    Ok(())
}

fn found(session: &Session, words: &str) -> Result<Designed, Refusal> {
    let read = read(session, words)?;
    let reset = reset(session.alloc(), word_after(words, "reset"))?;
    designed(session.alloc(), &read, reset, judging(words))
}

fn read(session: &Session, words: &str) -> Result<ReadTexts, Refusal>
    ensures { IfOk result AreLawful }
{
    let forms = Forms {
        netlist: NetlistForm::Narrow,
        script: ScriptForm::Narrow,
    };
    let source = netlist(
        session.alloc(),
        session.bytes(word_at(words, 0)),
        &forms.netlist,
    )?;
    let library = library(session, word_at(words, 1))?;
    let script = constraints(
        session.alloc(),
        session.bytes(word_at(words, 2)),
        &forms.script,
    )?;
    Ok(ReadTexts {
        source,
        library,
        script,
        forms,
    })
}

/// The cells of a Liberty file, or those that are known without one.
pub fn library(session: &Session, name: &str) -> Result<Library, Refusal>
    ensures { IfOk result (λ library. IsLawfulLibrary library.cells) }
{
    if name == "builtin" {
        return Ok(builtin(session.alloc())?);
    }
    cells(session.alloc(), session.bytes(name))
}

fn reset(alloc: Global, port: &str) -> Result<Reset, AllocError>
    ensures { IfOk result (λ reset. reset.len ≡ 1) }
{
    let ports = ports(alloc, port)?;
    Ok(Reset { ports, len: 1 })
}

fn ports(alloc: Global, port: &str) -> Result<Seq<Setting>, AllocError> {
    if port.is_empty() {
        return Ok(Seq::new(alloc));
    }
    let name = Name::new(alloc, port.as_bytes())?;
    let value = !port.ends_with("_n");
    Seq::one(alloc, Setting { name, value })
}

fn judging(words: &str) -> Judging
    ensures { CanJudge result }
{
    let lag = number_of(word_after(words, "lag")).unwrap_or(0).min(8);
    Judging {
        hazard: word_after(words, "judged") == "hazard",
        lag: lag as u8,
        hold: false,
        strict: false,
    }
}
