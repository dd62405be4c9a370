//! Bits of a run with their names.
ghost use Rattle.std.specs.Prelude.{◌≡◌, ◌++◌, ◌∷◌, [], map, flat_map, IfOk, OnOk};
ghost use Rattle.wave_signals.specs.declared.bits.NamedBit.{NamedBit as Bit};
ghost use Rattle.linked_types.specs.Inputs.{input_names};
ghost use Rattle.named_runs.specs.NamedBits as spec;

use crate::places::{Place, values_of};
use linked_types::{CellName, Names, NetName};
use net_model::Cycle;
use sdcv_base::Name;
use std::alloc::{AllocError, Global};
use wave_signals::{BitKind, NamedBit};

fn named_bit(
    alloc: Global,
    kind: BitKind,
    name: &Name,
    run: &[Cycle],
    place: Place,
) -> Result<NamedBit, AllocError>
    ensures { IfOk result (λ bit. bit ≡ spec.named_bit kind name.now run.now place) }
{
    Ok(NamedBit {
        kind,
        name: name.copy(alloc)?,
        values: values_of(alloc, run, place)?,
    })
}

/// Adds the bits of nets.
pub(crate) fn add_nets(
    alloc: Global,
    bits: &mut Vec<NamedBit>,
    nets: &[NetName],
    run: &[Cycle],
) -> Result<(), AllocError>
    ensures { OnOk result (bits.new.items ≡ bits.old.items ++ map (spec.net_bit run.now) nets.now) }
{
    for net in nets {
        let place = Place::Net(net.net);
        bits.push(named_bit(alloc, BitKind::Wire, &net.name, run, place)?)?;
    }
    Ok(())
}

fn add_cell(
    alloc: Global,
    bits: &mut Vec<NamedBit>,
    cell: &CellName,
    run: &[Cycle],
) -> Result<(), AllocError>
    ensures { OnOk result (bits.new.items ≡ bits.old.items ++ spec.cell_bits run.now cell.now) }
{
    match cell.reg {
        None => Ok(()),
        Some(reg) => {
            let place = Place::Reg(reg);
            Ok(bits.push(named_bit(alloc, BitKind::Reg, &cell.name, run, place)?)?)
        }
    }
}

/// Adds the bits of registers.
pub(crate) fn add_regs(
    alloc: Global,
    bits: &mut Vec<NamedBit>,
    cells: &[CellName],
    run: &[Cycle],
) -> Result<(), AllocError>
    ensures { OnOk result (bits.new.items ≡ bits.old.items ++ spec.reg_bits cells.now run.now) }
{
    for cell in cells {
        add_cell(alloc, bits, cell, run)?;
    }
    Ok(())
}

/// The bits of inputs.
pub(crate) fn input_bits(
    alloc: Global,
    names: &Names,
    run: &[Cycle],
) -> Result<Vec<NamedBit>, AllocError>
    ensures { IfOk result (λ bits. bits.items ≡ spec.input_bits (input_names names.now) run.now) }
{
    let mut bits = Vec::new(alloc);
    for place in 0..names.input_count()? {
        let input = Place::Input(place);
        bits.push(named_bit(alloc, BitKind::Wire, names.input(place), run, input)?)?;
    }
    Ok(bits)
}
