//! The references of cells that are cut out, each once.
ghost use Rattle.std.specs.Prelude.{◌≡◌, ℕ, List, true, length, map, IfOk};
ghost use Rattle.texts.specs.Names.{are_distinct};
ghost use Rattle.link_defs.specs.Cuts.{cut_names as spec_names};
ghost use Rattle.link_cuts.specs.References.{counts_of as spec_counts, named_by, references_of as spec_references};

use link_defs::CutCell;
use linked_types::CutName;
use sdcv_base::{Name, Seq};
use std::alloc::{AllocError, Global};
use texts::NameTable;

/// The references of cells that are cut out, each once, with how many cells are of it.
pub fn cut_names(alloc: Global, cells: &Seq<CutCell>) -> Result<Seq<CutName>, AllocError>
    ensures { IfOk result (λ list. list ≡ spec_names cells.now) }
{
    let references = references_of(alloc, cells)?;
    let counts = counts_of(alloc, cells, &references)?;
    let names = references.names(alloc)?;
    let list = counted(alloc, &names, &counts)?;
    Ok(list)
}

/// The references of cells, each once.
fn references_of(alloc: Global, cells: &Seq<CutCell>) -> Result<NameTable, AllocError>
    ensures { IfOk result (λ names. names ≡ spec_references cells.now) }
{
    let mut names = NameTable::new(alloc);
    for k in 0..cells.len() {
        names.add(alloc, &cells.item(k).cell)?;
    }
    Ok(names)
}

/// For each of these references how many cells are of it.
fn counts_of(
    alloc: Global,
    cells: &Seq<CutCell>,
    references: &NameTable,
) -> Result<Seq<usize>, AllocError>
    requires { are_distinct references.now ≡ true }
    ensures { IfOk result (λ counts. counts ≡ spec_counts cells.now references.now) }
{
    let mut counts = Seq::filled(alloc, 0, references.len())?;
    for k in 0..cells.len() {
        let place = references.place(&cells.item(k).cell);
        if place < counts.len() {
            let count = counts.at(place);
            counts.put(place, count + 1);
        }
    }
    Ok(counts)
}

/// These references with their counts.
fn counted(alloc: Global, names: &[Name], counts: &Seq<usize>) -> Result<Seq<CutName>, AllocError>
    requires { length counts.now ≡ length names.now }
    ensures { IfOk result (λ list. (count : List ℕ → ℕ) → counts.now ≡ map count names.now → list ≡ map (named_by count) names.now) }
{
    let mut list = Seq::new(alloc);
    for k in 0..names.len() {
        let cell = names[k].copy(alloc)?;
        list.push(CutName {
            cell,
            count: counts.at(k),
            open: false,
        })?;
    }
    Ok(list)
}
