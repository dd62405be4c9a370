//! Whether there is a path through sets of pins.
ghost use Rattle.std.specs.Prelude.{◌≡◌, ◌<◌, ◌≤◌, ◌↔◌, ℕ, IfOk, IsTrue, length, slice_get, slice_index, Some};
ghost use Rattle.net_model.specs.Netlist.{IsSound, AllBelow};
ghost use Rattle.net_model.specs.Fits.{IsStartIn, IsEndIn};
ghost use Rattle.net_model.specs.Paths.{HasPath};
ghost use Rattle.net_paths.specs.Levels.{MeetsAtEnd, MeetsAllAt, MeetsAtReg};

use crate::levels::levels_of;
use crate::sets::advance;
use net_model::{Design, End, PinRef, PinSet, Start};
use sdcv_base::Seq;
use std::alloc::{AllocError, Global};

/// Whether a path of pins leads from the start to the end and meets a pin of each set, in the order of the sets
/// (SDC 2.1, `-through`). One pin may meet several sets. A path ends at no clock pin: a register lists none.
pub fn has_path(
    alloc: Global,
    design: &Design,
    start: &Start,
    end: &End,
    through: &Seq<PinSet>,
) -> Result<bool, AllocError>
    requires sound { IsSound design.now }
    requires start { IsStartIn design.now start.now }
    requires end { IsEndIn design.now end.now }
    ensures { IfOk result (λ found. IsTrue found ↔ HasPath design.now start.now end.now through.now) }
{
    let levels = levels_of(alloc, design, start, through)?;
    Ok(meets_at_end(design, through, &levels, end))
}

/// Whether a path to a net of these levels goes on to a pin of the end and meets all sets.
pub(crate) fn meets_at_end(
    design: &Design,
    sets: &Seq<PinSet>,
    levels: &Seq<Option<usize>>,
    end: &End,
) -> bool
    requires sound { IsSound design.now }
    requires end { IsEndIn design.now end.now }
    requires len { length levels.now ≡ design.now.nets }
    ensures { IsTrue result ↔ MeetsAtEnd design.now sets.now levels.now end.now }
{
    match end {
        End::Reg(reg) => meets_at_pins(sets, levels, *reg, design.regs.item(*reg).ins.as_slice()),
        End::Output(output) => {
            let net = design.outputs.at(*output);
            meets_all(sets, levels, PinRef::OutPort(*output), net)
        }
    }
}

fn meets_at_pins(sets: &Seq<PinSet>, levels: &Seq<Option<usize>>, reg: usize, ins: &[usize]) -> bool
    requires { AllBelow (length levels.now) ins.now }
    ensures { IsTrue result ↔ MeetsAtReg sets.now levels.now reg ins.now (length ins.now) }
{
    for (i, net) in ins.iter().enumerate() {
        if meets_all(sets, levels, PinRef::RegIn(reg, i), *net) {
            return true;
        }
    }
    false
}

pub(crate) fn meets_all(
    sets: &Seq<PinSet>,
    levels: &Seq<Option<usize>>,
    pin: PinRef,
    net: usize,
) -> bool
    requires { net < length levels.now }
    ensures { IsTrue result ↔ MeetsAllAt sets.now levels.now pin net }
{
    match levels.at(net) {
        Some(before) => sets.len() <= advance(sets, before, pin),
        None => false,
    }
}
