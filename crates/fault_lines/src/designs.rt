//! The lines of texts that are read and say nothing together.
ghost use Rattle.std.specs.Prelude.{◌≡◌, IfOk, Some};
ghost use Rattle.fault_lines.specs.Designs.{expand_line, link_line};

use crate::shapes::{limit_line, name_line, number_line, numbered_line, two_numbers_line};
use linked_types::LinkFault;
use selected_types::ExpandFault;
use std::alloc::{AllocError, Global};

/// The line of a netlist that can't be linked with its cells.
pub fn link_line(alloc: Global, fault: &LinkFault) -> Result<Vec<u8>, AllocError>
    ensures { IfOk result (λ line. link_line fault.now ≡ Some line.items) }
{
    match fault {
        LinkFault::UnknownCell(name) => name_line(alloc, "refused link 1 UnknownCell", name),
        LinkFault::UnsupportedCell(name) => {
            name_line(alloc, "refused link 2 UnsupportedCell", name)
        }
        LinkFault::UnknownPin(name) => name_line(alloc, "refused link 3 UnknownPin", name),
        LinkFault::OpenInput(name) => name_line(alloc, "refused link 4 OpenInput", name),
        LinkFault::Undriven(name) => name_line(alloc, "refused link 5 Undriven", name),
        LinkFault::ManyDrivers(name) => name_line(alloc, "refused link 6 ManyDrivers", name),
        LinkFault::Loop(name) => name_line(alloc, "refused link 7 Loop", name),
        LinkFault::NotTheClock(name) => name_line(alloc, "refused link 8 NotTheClock", name),
        LinkFault::ClockAsData(name) => name_line(alloc, "refused link 9 ClockAsData", name),
        LinkFault::Recursive(name) => name_line(alloc, "refused link 10 Recursive", name),
        LinkFault::NameClash(name) => name_line(alloc, "refused link 11 NameClash", name),
        LinkFault::NoTop(number) => number_line(alloc, "refused link 12 NoTop", *number),
        LinkFault::Limit(what, number) => {
            limit_line(alloc, "refused link 13 Limit", *what, *number)
        }
        LinkFault::BadSetting(name) => name_line(alloc, "refused link 14 BadSetting", name),
        LinkFault::Memory => Err(AllocError),
    }
}

/// The line of a script that gives no settings, or selects no pairs.
pub fn expand_line(alloc: Global, fault: &ExpandFault) -> Result<Vec<u8>, AllocError>
    ensures { IfOk result (λ line. expand_line fault.now ≡ Some line.items) }
{
    match fault {
        ExpandFault::TwoClocks(first, second) => {
            two_numbers_line(alloc, "refused expand 1 TwoClocks", *first, *second)
        }
        ExpandFault::ClockNotPort(line) => {
            number_line(alloc, "refused expand 2 ClockNotPort", *line)
        }
        ExpandFault::CaseTwice(first, second) => {
            two_numbers_line(alloc, "refused expand 3 CaseTwice", *first, *second)
        }
        ExpandFault::CaseOnReset(line, name) => {
            numbered_line(alloc, "refused expand 4 CaseOnReset", *line, name)
        }
        ExpandFault::CaseOnPin(line, name) => {
            numbered_line(alloc, "refused expand 5 CaseOnPin", *line, name)
        }
        ExpandFault::Limit(what, number) => {
            limit_line(alloc, "refused expand 6 Limit", *what, *number)
        }
        ExpandFault::Memory => Err(AllocError),
        ExpandFault::NoClock(name) => name_line(alloc, "refused expand 8 NoClock", name),
        ExpandFault::Generated(line) => number_line(alloc, "refused expand 9 Generated", *line),
    }
}
