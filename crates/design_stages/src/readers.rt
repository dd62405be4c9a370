//! The stages that read a text.
ghost use Rattle.std.specs.Prelude.{◌≡◌, IfOk};
ghost use Rattle.netlist_types.specs.Lawful.{IsLawful};
ghost use Rattle.cell_types.specs.Libraries.{IsLawful as IsLawfulLibrary};
ghost use Rattle.exception_expand.specs.Selections.{HasMultipliers};
ghost use Rattle.design_stages.specs.Stages.{Finds};
ghost use Rattle.design_stages.specs.Texts.{Netlist, Cells, Constraints, is_wide};

use crate::refusals::Refusal;
use cell_lib::read_lib;
use cell_types::Library;
use fault_lines::{liberty_line, sdc_line, verilog_line};
use netlist_types::Source;
use run_options::{NetlistForm, ScriptForm};
use script_types::Script;
use sdc_text::read_sdc;
use std::alloc::Global;
use verilog_net::read_verilog;

/// Whether a netlist is read wide.
pub(crate) fn is_wide(form: &NetlistForm) -> bool
    ensures { result ≡ is_wide form.now }
{
    match form {
        NetlistForm::Narrow => false,
        NetlistForm::Wide(_) => true,
    }
}

/// What a netlist's text stands for, in this form.
pub fn netlist(alloc: Global, text: &[u8], form: &NetlistForm) -> Result<Source, Refusal>
    ensures found { Finds (Netlist form.now text.now) result }
    ensures lawful { IfOk result IsLawful }
{
    match read_verilog(alloc, text, is_wide(form)) {
        Ok(source) => Ok(source),
        Err(fault) => Err(Refusal::Line(verilog_line(alloc, &fault)?)),
    }
}

/// The cells of a Liberty text.
pub fn cells(alloc: Global, text: &[u8]) -> Result<Library, Refusal>
    ensures found { Finds (Cells text.now) result }
    ensures lawful { IfOk result (λ library. IsLawfulLibrary library.cells) }
{
    match read_lib(alloc, text) {
        Ok(library) => Ok(library),
        Err(fault) => Err(Refusal::Line(liberty_line(alloc, &fault)?)),
    }
}

/// The script that the constraints' text is, in this form.
pub fn constraints(alloc: Global, text: &[u8], form: &ScriptForm) -> Result<Script, Refusal>
    ensures found { Finds (Constraints form.now text.now) result }
    ensures multipliers { IfOk result HasMultipliers }
{
    match read_sdc(alloc, text, form) {
        Ok(script) => Ok(script),
        Err(fault) => Err(Refusal::Line(sdc_line(alloc, &fault)?)),
    }
}
