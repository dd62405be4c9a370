//! The design of a circuit.
ghost use Rattle.std.specs.Prelude.{◌≡◌, IfOk, IfErr, OnOk, All, length, map};
ghost use Rattle.net_model.specs.Netlist.{AllBelow};
ghost use Rattle.link_design.specs.Faults.{IsCause, IsFaultless};
ghost use Rattle.link_defs.specs.Designs.{gate_at};
ghost use Rattle.link_design.specs.Kept.{kept_drivers};
ghost use Rattle.link_design.specs.Lawful.{IsLawfulCircuit};
ghost use Rattle.link_design.specs.Made.{IsHeldBy, IsMade};
ghost use Rattle.link_design.specs.Netlists.{AreDrivers, IsNumberedBy, IsNetlist, IsSized, IsTooLarge};
ghost use Rattle.link_design.specs.Numbered.{IsNumbering, IsWithin};

use crate::faults::CircuitFault;
use crate::kept::{kept_places, with_kept_nets};
use crate::lists::data_sources;
use crate::numbers::{NetNumbers, numbered_gates, numbered_regs, numbers_of};
use crate::ordered::{OrderedGates, ordered_gates};
use crate::rows::driver_row;
use crate::trees::{check_clock, clock_tree};
use link_defs::Circuit;
use net_model::{Design, Fixed, Gate, MOST_INPUTS, MOST_NETS, MOST_OUTPUTS, MOST_REGISTERS};
use sdcv_base::{LimitName, Seq};
use std::alloc::{AllocError, Global};

/// The inputs of a design that keep a value, its resets with their active values, and for how many cycles these are
/// active. Inputs are counted in the order of the circuit.
#[derive(Drop)]
pub struct Held {
    pub fixed: Seq<Fixed>,
    pub resets: Seq<Fixed>,
    pub reset_len: usize,
}

/// The design of a circuit, a mark for each net of the clock tree, for each of these the clock gate above it, if there is
/// one, by the net that this drives, and for each net of the circuit its number in the design. A net that is none of the
/// design has the number of the design's nets.
#[derive(Drop)]
pub struct CircuitDesign {
    pub design: Design,
    pub tree: Seq<bool>,
    pub above: Seq<Option<usize>>,
    pub numbers: Seq<usize>,
}

/// The sound design of a circuit. Its nets are numbered by their drivers: data inputs, outputs of registers, then gates in
/// an order in which each reads what is driven before it. The gates of the clock tree are left out, and so are clock gates.
pub fn design_of(
    alloc: Global,
    circuit: &Circuit,
    held: Held,
) -> Result<CircuitDesign, CircuitFault>
    requires lawful { IsLawfulCircuit circuit.now }
    requires held { IsHeldBy (length circuit.now.inputs) held }
    ensures ok { IfOk result (IsMade circuit.now held) }
    ensures err { IfErr result (IsCause circuit.now) }
    ensures none { OnOk result (IsFaultless circuit.now) }
{
    let ordered = ordered_gates(alloc, circuit)?;
    let clock = clock_tree(alloc, circuit)?;
    check_clock(alloc, circuit, &clock)?;
    let kept = kept_places(alloc, &ordered, &clock.tree)?;
    let numbers = net_numbers(alloc, circuit, &ordered, &kept)?;
    let design = netlist(alloc, circuit, &ordered.gates, &kept, &numbers, held)?;
    check_sizes(&design)?;
    Ok(CircuitDesign {
        design,
        tree: clock.tree,
        above: clock.above,
        numbers: numbers.row,
    })
}

/// The numbers of the nets: places among the drivers of the design.
fn net_numbers(
    alloc: Global,
    circuit: &Circuit,
    ordered: &OrderedGates,
    kept: &Seq<usize>,
) -> Result<NetNumbers, CircuitFault>
    requires kept { AllBelow (length ordered.now.gates) kept.now }
    requires drivers { AreDrivers circuit.now.nets (kept_drivers circuit.now ordered.now.gates kept.now) }
    ensures ok { IfOk result (IsNumberedBy circuit.now ordered.now.gates kept.now) }
    ensures err { IfErr result (IsCause circuit.now) }
{
    let sources = data_sources(alloc, circuit)?;
    let drivers = with_kept_nets(alloc, &sources, &ordered.gates, kept)?;
    let row = driver_row(alloc, &drivers, circuit.nets)?;
    Ok(NetNumbers { drivers, row })
}

/// The design by the numbers of its nets.
fn netlist(
    alloc: Global,
    circuit: &Circuit,
    gates: &Seq<Gate>,
    kept: &Seq<usize>,
    numbers: &NetNumbers,
    held: Held,
) -> Result<Design, AllocError>
    requires lawful { IsLawfulCircuit circuit.now }
    requires row { IsNumbering numbers.now }
    requires len { length numbers.now.row ≡ circuit.now.nets }
    requires kept { AllBelow (length gates.now) kept.now }
    requires gates { All (λ place. IsWithin (length numbers.now.row) (gate_at gates.now place)) kept.now }
    ensures { IfOk result (IsNetlist circuit.now numbers.now.drivers (map (gate_at gates.now) kept.now) held) }
{
    let gates = numbered_gates(alloc, numbers, gates, kept)?;
    let regs = numbered_regs(alloc, numbers, &circuit.parts)?;
    let inputs = numbers_of(alloc, numbers, &circuit.inputs)?;
    let outputs = numbers_of(alloc, numbers, &circuit.outputs)?;
    Ok(Design {
        nets: numbers.drivers.len(),
        gates,
        regs,
        inputs,
        outputs,
        fixed: held.fixed,
        resets: held.resets,
        reset_len: held.reset_len,
    })
}

/// Refuses a design above a limit.
fn check_sizes(design: &Design) -> Result<(), CircuitFault>
    ensures ok { OnOk result (IsSized design.now) }
    ensures err { IfErr result (IsTooLarge design.now) }
{
    let nets = design.nets;
    let regs = design.regs.len();
    let inputs = design.inputs.len();
    let outputs = design.outputs.len();
    if nets > MOST_NETS {
        return Err(CircuitFault::Limit(LimitName::Nets, 200_001));
    }
    if regs > MOST_REGISTERS {
        return Err(CircuitFault::Limit(LimitName::Registers, 20_001));
    }
    if inputs > MOST_INPUTS {
        return Err(CircuitFault::Limit(LimitName::Inputs, 20_001));
    }
    if outputs > MOST_OUTPUTS {
        return Err(CircuitFault::Limit(LimitName::Outputs, 20_001));
    }
    Ok(())
}
