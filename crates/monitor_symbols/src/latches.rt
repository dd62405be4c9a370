//! The names of a monitor's latches.
ghost use Rattle.std.specs.Prelude.{◌≡◌, ◌++◌, ◌<◌, ℕ, length, map, IfOk, OnOk, slice_get, slice_index_or, if◌then◌else◌};
ghost use Rattle.std.specs.List.{range_with_len};
ghost use Rattle.sdcv_base.specs.Seqs.{where_true};
ghost use Rattle.linked_types.specs.Usable.{is_reg};
ghost use Rattle.monitor_symbols.specs.Latches as spec;

use claim_monitor::Sizes;
use linked_types::CellName;
use sdcv_base::{Name, Seq, push_decimal};
use std::alloc::{AllocError, Global};

/// The names of the latches of a monitor, in their order.
pub fn latch_names(
    alloc: Global,
    cells: &[CellName],
    sizes: &Sizes,
) -> Result<Seq<Name>, AllocError>
    ensures { IfOk result (λ names. names ≡ spec.latch_names cells.now sizes.now) }
{
    let mut names = reg_names(alloc, cells, sizes.regs as usize)?;
    add_numbered(alloc, &mut names, "sdcv.reset", sizes.resets)?;
    add_where(alloc, &mut names, "sdcv.live", true)?;
    add_numbered(alloc, &mut names, "sdcv.start", sizes.judged)?;
    let toggles = sizes.judged.saturating_sub(1);
    add_numbered(alloc, &mut names, "sdcv.toggle", toggles)?;
    add_where(alloc, &mut names, "sdcv.capture", sizes.has_capture)?;
    add_where(alloc, &mut names, "sdcv.early", sizes.has_early)?;
    Ok(names)
}

/// Adds a name, where it is wanted.
fn add_where(
    alloc: Global,
    names: &mut Seq<Name>,
    word: &str,
    wanted: bool,
) -> Result<(), AllocError>
    ensures { OnOk result (names.new ≡ names.old ++ where_true wanted word.now) }
{
    if wanted {
        names.push(Name::new(alloc, word.as_bytes())?)?;
    }
    Ok(())
}

/// Adds a name with each number below a count, as `sdcv.reset[0]`.
fn add_numbered(
    alloc: Global,
    names: &mut Seq<Name>,
    word: &str,
    count: u64,
) -> Result<(), AllocError>
    ensures { OnOk result (names.new ≡ names.old ++ spec.each_numbered word.now count) }
{
    for number in 0..count {
        let name = numbered(alloc, word, number)?;
        names.push(name)?;
    }
    Ok(())
}

/// A name with a number.
fn numbered(alloc: Global, word: &str, number: u64) -> Result<Name, AllocError>
    ensures { IfOk result (λ name. name ≡ spec.numbered word.now number) }
{
    let mut text = Vec::new(alloc);
    text.extend_from_slice(word.as_bytes())?;
    text.push(b'[')?;
    push_decimal(alloc, &mut text, number)?;
    text.push(b']')?;
    Ok(Name::from_vec(text))
}

/// The full names of the registers below a count, in their order.
fn reg_names(alloc: Global, cells: &[CellName], count: usize) -> Result<Seq<Name>, AllocError>
    ensures { IfOk result (λ names. names ≡ map (spec.reg_name cells.now) (range_with_len 0 count)) }
{
    let places = reg_places(alloc, cells, count)?;
    let mut names = Seq::new(alloc);
    for reg in 0..count {
        let name = name_at(alloc, cells, places.at(reg))?;
        names.push(name)?;
    }
    Ok(names)
}

/// The full name of the cell at a place. Where there is none, it is empty.
fn name_at(alloc: Global, cells: &[CellName], place: usize) -> Result<Name, AllocError>
    ensures { IfOk result (λ name. name ≡ spec.name_of (slice_get cells.now place)) }
{
    match cells.get(place) {
        Some(cell) => cell.name.copy(alloc),
        None => Name::new(alloc, b""),
    }
}

/// For each register below a count the place of its cell, or that after the last one. Of several cells the first counts.
fn reg_places(alloc: Global, cells: &[CellName], count: usize) -> Result<Seq<usize>, AllocError>
    ensures { IfOk result (spec.ArePlacesOf cells.now count) }
{
    let total = cells.len();
    let mut places = Seq::filled(alloc, total, count)?;
    for k in 0..total {
        let place = total - 1 - k;
        put_place(&mut places, place, &cells[place]);
    }
    Ok(places)
}

/// Writes the place of a cell for its register, where it has one of these.
fn put_place(places: &mut Seq<usize>, place: usize, cell: &CellName)
    ensures len { length places.new ≡ length places.old }
    ensures each { (r none : ℕ) → r < length places.old
        → slice_index_or places.new r none ≡ (if is_reg r cell.now then place else slice_index_or places.old r none) }
{
    let Some(reg) = cell.reg else {
        return;
    };
    if reg < places.len() {
        places.put(reg, place);
    }
}
