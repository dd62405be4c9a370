//! The design of a netlist, with all its names.
ghost use Rattle.std.specs.Prelude.{◌≡◌, IfOk};
ghost use Rattle.cell_types.specs.Libraries.{IsLawful as IsLawfulLibrary};
ghost use Rattle.netlist_types.specs.Lawful.{IsLawful};

use crate::designs::{design_text, names_text, ports_text};
use crate::selecting::{library, push_refusal};
use crate::sessions::Session;
use crate::steps::{word_after, word_at};
use cell_types::Library;
use design_stages::netlist;
use net_link::{LinkOptions, Linked, link, top_inputs};
use netlist_types::Source;
use run_options::NetlistForm;
use sdcv_base::{Name, Seq, Setting};
use std::alloc::{AllocError, Global};

/// `link NETLIST CELLS`, where CELLS may be `builtin`, and then `clock NAME`, `fixed NAME` and `reset NAME`, both of which are
/// at 0: the inputs of the top module, the design, and its names in order; or what is told of the fault.
pub fn linked_text(session: &Session, words: &str) -> Result<String, AllocError> {
    let mut text = String::new(session.alloc());
    let bytes = session.bytes(word_at(words, 0));
    match netlist(session.alloc(), bytes, &NetlistForm::Narrow) {
        Ok(source) => push_linked(session, words, &source, &mut text)?,
        Err(refusal) => push_refusal(&mut text, &refusal)?,
    }
    Ok(text)
}

fn push_linked(
    session: &Session,
    words: &str,
    source: &Source,
    text: &mut String,
) -> Result<(), AllocError>
    requires { IsLawful source.now }
{
    match library(session, word_at(words, 1)) {
        Ok(library) => push_found(session, words, source, &library, text),
        Err(refusal) => push_refusal(text, &refusal),
    }
}

fn push_found(
    session: &Session,
    words: &str,
    source: &Source,
    library: &Library,
    text: &mut String,
) -> Result<(), AllocError>
    requires source { IsLawful source.now }
    requires library { IsLawfulLibrary library.now.cells }
{
    let options = options(session.alloc(), words)?;
    let items = Seq::new(session.alloc());
    match link(session.alloc(), source, &items, library, &options) {
        Ok(linked) => push_inputs(session.alloc(), source, &linked, text),
        Err(fault) => writeln!(text, "{fault}"),
    }
}

fn push_inputs(
    alloc: Global,
    source: &Source,
    linked: &Linked,
    text: &mut String,
) -> Result<(), AllocError>
    requires { IsLawful source.now }
{
    match top_inputs(alloc, source) {
        Ok(inputs) => {
            let inputs = ports_text(alloc, &inputs)?;
            writeln!(text, "inputs{inputs}")?;
            push_design(alloc, linked, text)
        }
        Err(fault) => writeln!(text, "{fault}"),
    }
}

fn push_design(alloc: Global, linked: &Linked, text: &mut String) -> Result<(), AllocError> {
    let design = design_text(alloc, linked)?;
    writeln!(text, "{design}")?;
    let names = names_text(alloc, linked)?;
    text.push_str("names")?;
    push_sorted(alloc, names.as_str(), text)
}

// The words of a text in order.
fn push_sorted(alloc: Global, names: &str, text: &mut String) -> Result<(), AllocError> {
    let mut words: Vec<&str> = names.split(' ').collect(alloc)?;
    words.sort_unstable();
    for word in words {
        if !word.is_empty() {
            write!(text, " {word}")?;
        }
    }
    text.push_str("\n")
}

fn name_if_any(alloc: Global, name: &str) -> Result<Option<Name>, AllocError> {
    if name.is_empty() {
        return Ok(None);
    }
    Ok(Some(Name::new(alloc, name.as_bytes())?))
}

// The input of that name, if there is one, with the value 0.
fn at_zero(alloc: Global, name: &str) -> Result<Seq<Setting>, AllocError> {
    match name_if_any(alloc, name)? {
        Some(name) => Seq::one(alloc, Setting { name, value: false }),
        None => Ok(Seq::new(alloc)),
    }
}

fn options(alloc: Global, words: &str) -> Result<LinkOptions, AllocError>
    ensures { IfOk result (λ made. made.reset_len ≡ 1) }
{
    let clock = name_if_any(alloc, word_after(words, "clock"))?;
    let fixed = at_zero(alloc, word_after(words, "fixed"))?;
    let resets = at_zero(alloc, word_after(words, "reset"))?;
    Ok(LinkOptions {
        clock,
        fixed,
        resets,
        reset_len: 1,
        wide: false,
        cut_clocks: false,
    })
}
