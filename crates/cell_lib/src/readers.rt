//! The call that reads a library.
ghost use Rattle.std.specs.Prelude.{◌≡◌, IfOk, IfErr, MatchOption, Ok, true};
ghost use Rattle.texts.specs.Names.{are_distinct};
ghost use Rattle.cell_types.specs.Libraries.{IsLawful};
ghost use Rattle.lib_words.specs.Groups as words;
ghost use Rattle.cell_lib.specs.Texts.{Reads, Refuses, StandsTwice, names};
ghost use Rattle.cell_lib.specs.Told.{of_groups};

use crate::cells::cells_of;
use crate::flaws::{Flaw, flaw_in};
use crate::{LibFault, Library};
use lib_words::{CellGroup, GroupFault, read_cells};
use sdcv_base::{Name, Seq};
use std::alloc::{AllocError, Global};
use texts::NameTable;

/// A name that two cells have.
fn twice_named(alloc: Global, groups: &[CellGroup]) -> Result<Option<Name>, AllocError>
    ensures { IfOk result (λ found. MatchOption found (are_distinct (names groups.now) ≡ true) (λ n. StandsTwice n (names groups.now))) }
{
    let mut table = NameTable::new(alloc);
    for group in groups {
        if !table.add(alloc, &group.name)? {
            return Ok(Some(group.name.copy(alloc)?));
        }
    }
    Ok(None)
}

/// A fault of the group tree, told of a library.
fn told(fault: GroupFault) -> LibFault
    ensures { result ≡ of_groups fault }
{
    match fault {
        GroupFault::Syntax(place) => LibFault::Syntax(place),
        GroupFault::Deep(place) => LibFault::Deep(place),
        GroupFault::Memory => LibFault::Memory,
    }
}

/// The cells of the text as groups.
fn groups_of(alloc: Global, text: &[u8]) -> Result<Seq<CellGroup>, LibFault>
    ensures groups { IfOk result (λ groups. words.cells_of text.now ≡ Ok groups) }
    ensures refused { IfErr result (λ e. Refuses text.now e) }
{
    match read_cells(alloc, text) {
        Ok(groups) => Ok(groups),
        Err(fault) => Err(told(fault)),
    }
}

/// The library that a Liberty text is.
///
/// It refuses a text that is no group tree (`Syntax`), a quoted text that is read as a function and is none
/// (`Function`, at the first byte after the quote of the first one), a group or function that is too deep (`Deep`), and two
/// cells of one name (`TwiceCell`). A cell that can't be modelled is `Other`, and never refuses the text. Each name is looked up in a table, so the work is linear in
/// the bytes, but that a group which names n pins has its function n times.
pub fn read_lib(alloc: Global, text: &[u8]) -> Result<Library, LibFault>
    ensures value { Reads text.now result }
    ensures lawful { IfOk result (λ library. IsLawful library.cells) }
{
    let groups = groups_of(alloc, text)?;
    let broken = flaw_in(alloc, Flaw::Broken, groups.as_slice())?;
    if let Some(place) = broken {
        return Err(LibFault::Function(place));
    }
    let deep = flaw_in(alloc, Flaw::Deep, groups.as_slice())?;
    if let Some(place) = deep {
        return Err(LibFault::Deep(place));
    }
    let twice = twice_named(alloc, groups.as_slice())?;
    if let Some(name) = twice {
        return Err(LibFault::TwiceCell(name));
    }
    let cells = cells_of(alloc, groups.as_slice())?;
    Ok(Library { cells })
}
