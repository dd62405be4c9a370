//! The lines of texts that are not read.
ghost use Rattle.std.specs.Prelude.{◌≡◌, IfOk, Some};
ghost use Rattle.fault_lines.specs.Sources.{assist_line, liberty_line, sdc_line, too_long_line, verilog_line};

use crate::shapes::{name_line, number_line, numbered_line, plain_line};
use assist_types::AssistFault;
use cell_types::LibFault;
use netlist_types::VerFault;
use script_types::SdcFault;
use std::alloc::{AllocError, Global};

/// A text that a run reads.
#[derive(Clone, Copy)]
pub enum Origin {
    Verilog,
    Liberty,
    Sdc,
    Cert,
    Stimulus,
    Assist,
}

/// The line of a text that is longer than its limit.
pub fn too_long_line(alloc: Global, origin: Origin) -> Result<Vec<u8>, AllocError>
    ensures { IfOk result (λ line. line.items ≡ too_long_line origin) }
{
    match origin {
        Origin::Verilog => plain_line(alloc, "refused verilog 0 TooLong"),
        Origin::Liberty => plain_line(alloc, "refused liberty 0 TooLong"),
        Origin::Sdc => plain_line(alloc, "refused sdc 0 TooLong"),
        Origin::Cert => plain_line(alloc, "refused cert 0 TooLong"),
        Origin::Stimulus => plain_line(alloc, "refused stimulus 0 TooLong"),
        Origin::Assist => plain_line(alloc, "refused assist 0 TooLong"),
    }
}

/// The line of a netlist that its reader refuses.
pub fn verilog_line(alloc: Global, fault: &VerFault) -> Result<Vec<u8>, AllocError>
    ensures { IfOk result (λ line. verilog_line fault.now ≡ Some line.items) }
{
    match fault {
        VerFault::Syntax(place) => number_line(alloc, "refused verilog 1 Syntax", *place as u64),
        VerFault::Unsupported(place, word) => {
            numbered_line(alloc, "refused verilog 2 Unsupported", *place as u64, word)
        }
        VerFault::TwiceName(name) => name_line(alloc, "refused verilog 3 TwiceName", name),
        VerFault::Width(place) => number_line(alloc, "refused verilog 4 Width", *place as u64),
        VerFault::Deep(place) => number_line(alloc, "refused verilog 6 Deep", *place as u64),
        VerFault::Memory => Err(AllocError),
    }
}

/// The line of a library that its reader refuses.
pub fn liberty_line(alloc: Global, fault: &LibFault) -> Result<Vec<u8>, AllocError>
    ensures { IfOk result (λ line. liberty_line fault.now ≡ Some line.items) }
{
    match fault {
        LibFault::Syntax(place) => number_line(alloc, "refused liberty 1 Syntax", *place as u64),
        LibFault::Function(place) => {
            number_line(alloc, "refused liberty 2 Function", *place as u64)
        }
        LibFault::TwiceCell(name) => name_line(alloc, "refused liberty 3 TwiceCell", name),
        LibFault::Memory => Err(AllocError),
        LibFault::Deep(place) => number_line(alloc, "refused liberty 5 Deep", *place as u64),
    }
}

/// The line of constraints that their reader refuses.
pub fn sdc_line(alloc: Global, fault: &SdcFault) -> Result<Vec<u8>, AllocError>
    ensures { IfOk result (λ line. sdc_line fault.now ≡ Some line.items) }
{
    match fault {
        SdcFault::Syntax(place) => number_line(alloc, "refused sdc 1 Syntax", *place as u64),
        SdcFault::UnknownCommand(line, word) => {
            numbered_line(alloc, "refused sdc 2 UnknownCommand", *line, word)
        }
        SdcFault::UnknownVariable(line, word) => {
            numbered_line(alloc, "refused sdc 3 UnknownVariable", *line, word)
        }
        SdcFault::BadOption(line, word) => {
            numbered_line(alloc, "refused sdc 4 BadOption", *line, word)
        }
        SdcFault::BadNumber(line, word) => {
            numbered_line(alloc, "refused sdc 5 BadNumber", *line, word)
        }
        SdcFault::Memory => Err(AllocError),
        SdcFault::Deep(place) => number_line(alloc, "refused sdc 7 Deep", *place as u64),
    }
}

/// The line of clauses by name that are not read, or that speak of what is no register.
pub fn assist_line(alloc: Global, fault: &AssistFault) -> Result<Vec<u8>, AllocError>
    ensures { IfOk result (λ line. assist_line fault.now ≡ Some line.items) }
{
    match fault {
        AssistFault::Syntax(line) => number_line(alloc, "refused assist 1 Syntax", *line),
        AssistFault::Twice(line, name) => {
            numbered_line(alloc, "refused assist 2 Twice", *line, name)
        }
        AssistFault::Many(number) => number_line(alloc, "refused assist 3 Many", *number),
        AssistFault::Memory => Err(AllocError),
        AssistFault::UnknownRegister(line, name) => {
            numbered_line(alloc, "refused assist 5 UnknownRegister", *line, name)
        }
    }
}
