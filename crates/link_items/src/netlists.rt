//! A source and a library, with tables of their names.
ghost use Rattle.std.specs.Prelude.{◌≡◌, [], map, IfOk};
ghost use Rattle.texts.specs.Names.{with_names};
ghost use Rattle.netlist_types.specs.Lawful.{IsLawful};
ghost use Rattle.cell_types.specs.Libraries.{IsLawful as IsLawfulLibrary};
ghost use Rattle.link_items.specs.Tables.{module_names, cell_names, IsReferent};
ghost use Rattle.link_items.specs.Props.{lawful_props};

use cell_types::{Cell, Library};
use netlist_types::{Module, Source};
use sdcv_base::Name;
use std::alloc::{AllocError, Global};
use texts::NameTable;

/// A lawful source and a lawful library, with the tables of the names of their modules and cells.
#[derive(Drop)]
pub struct Netlist<'a> {
    pub source: &'a Source,
    pub library: &'a Library,
    pub modules: NameTable,
    pub cells: NameTable,
    ghost lawful_source: { IsLawful source.now } by { Prim.hlevel lawful_props },
    ghost lawful_library: { IsLawfulLibrary library.now.cells } by { Prim.hlevel lawful_props },
    ghost module_table: { modules ≡ module_names source.now },
    ghost cell_table: { cells ≡ cell_names library.now },
}

/// What a reference stands for: the module at a place of the source, or else the cell at a place of the library.
#[derive(Clone, Copy)]
pub enum Referent {
    Module(usize),
    Cell(usize),
    Unknown,
}

/// The names of modules in their order.
fn modules_table(alloc: Global, modules: &[Module]) -> Result<NameTable, AllocError>
    ensures { IfOk result (λ names. names ≡ with_names [] (map (λ m. m.name) modules.now)) }
{
    let mut names = NameTable::new(alloc);
    for module in modules {
        names.add(alloc, &module.name)?;
    }
    Ok(names)
}

/// The names of cells in their order.
fn cells_table(alloc: Global, cells: &[Cell]) -> Result<NameTable, AllocError>
    ensures { IfOk result (λ names. names ≡ with_names [] (map (λ c. c.name) cells.now)) }
{
    let mut names = NameTable::new(alloc);
    for cell in cells {
        names.add(alloc, &cell.name)?;
    }
    Ok(names)
}

impl<'a> Netlist<'a> {
    /// The tables of names, made once.
    pub fn of(
        alloc: Global,
        source: &'a Source,
        library: &'a Library,
    ) -> Result<Netlist<'a>, AllocError>
        requires source { IsLawful source.now }
        requires library { IsLawfulLibrary library.now.cells }
        ensures source { IfOk result (λ n. n.source.now ≡ source.now) }
        ensures library { IfOk result (λ n. n.library.now ≡ library.now) }
    {
        let modules = modules_table(alloc, source.modules.as_slice())?;
        let cells = cells_table(alloc, library.cells.as_slice())?;
        Ok(Netlist {
            source,
            library,
            modules,
            cells,
        })
    }

    /// What a name stands for as the reference of an instance.
    pub fn referent(&self, name: &Name) -> Referent
        ensures { IsReferent self.now.source.now self.now.library.now name.now result }
    {
        let module = self.modules.place(name);
        if module < self.modules.len() {
            return Referent::Module(module);
        }
        let cell = self.cells.place(name);
        if cell < self.cells.len() {
            return Referent::Cell(cell);
        }
        Referent::Unknown
    }
}
