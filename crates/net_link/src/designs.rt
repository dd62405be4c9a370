//! The design of a circuit with its clock gates.
ghost use Rattle.std.specs.Prelude.{◌≡◌, ◌++◌, IfOk, IfErr, OnOk, flat_map};
ghost use Rattle.net_model.specs.Netlist.{IsSound};
ghost use Rattle.icg_rewrite.specs.Faults.{HasRoom, IsRewriteCause};
ghost use Rattle.icg_rewrite.specs.Gated.{AreGated};
ghost use Rattle.icg_rewrite.specs.Rewritten.{rewritten};
ghost use Rattle.link_design.specs.Lawful.{IsLawfulCircuit};
ghost use Rattle.link_design.specs.Made.{IsMade};
ghost use Rattle.link_design.specs.declared.designs.Held.{Held};
ghost use Rattle.net_link.specs.Made.{IsGatedDesign};
ghost use Rattle.net_link.specs.Rows.{part_behind};

use crate::enables::clock_gates;
use crate::orders::ordered_nets;
use crate::rows::{enabled_numbers, gate_row, place_above};
use icg_rewrite::{Gated, RewriteFault, rewrite};
use link_defs::{Circuit, Part};
use link_design::CircuitDesign;
use net_model::Design;
use sdcv_base::Seq;
use std::alloc::{AllocError, Global};

/// The design of a circuit with its clock gates, a mark for each net of the clock tree, and for each net of the circuit its
/// number in the rewritten design: the output of a clock gate has that of its enable. A net of neither has the number of all
/// nets of the rewritten design.
#[derive(Drop)]
pub struct GatedDesign {
    pub gated: Gated,
    pub tree: Seq<bool>,
    pub numbers: Seq<usize>,
}

/// The design of a circuit with its clock gates, in the order in which each comes after the one above it, and which of them
/// each register stands behind.
pub fn gated_of(
    alloc: Global,
    circuit: &Circuit,
    made: CircuitDesign,
) -> Result<GatedDesign, AllocError>
    requires lawful { IsLawfulCircuit circuit.now }
    requires made { (held : Held) × IsMade circuit.now held made }
    ensures gated { IfOk result (λ g. (held : Held) (m : IsMade circuit.now held made) → IsGatedDesign circuit.now m.order g) }
    ensures design { IfOk result (λ g. g.gated.design ≡ made.design) }
    ensures tree { IfOk result (λ g. g.tree ≡ made.tree) }
{
    let nets = ordered_nets(alloc, circuit, &made.above)?;
    let row = gate_row(alloc, &nets, circuit.nets)?;
    let gates = clock_gates(alloc, &made.numbers, &made.above, &row, &nets)?;
    let of = gates_behind(alloc, circuit, &made.above, &row)?;
    let numbers = enabled_numbers(alloc, &made.numbers, made.design.nets, &row)?;
    let CircuitDesign { design, tree, .. } = made;
    let gated = Gated { design, gates, of };
    Ok(GatedDesign {
        gated,
        tree,
        numbers,
    })
}

/// The rewritten design. One without clock gates is its own, and is not copied.
pub fn with_enables(alloc: Global, gated: Gated) -> Result<Design, RewriteFault>
    requires { AreGated gated }
    ensures ok { IfOk result (λ design. design ≡ rewritten gated) }
    ensures sound { IfOk result IsSound }
    ensures err { IfErr result (IsRewriteCause gated) }
    ensures none { OnOk result (HasRoom gated) }
{
    if gated.gates.is_empty() {
        let Gated { design, .. } = gated;
        return Ok(design);
    }
    rewrite(alloc, &gated)
}

/// Appends the place of the clock gate behind which the register stands that a part is, if it is one.
fn push_behind(
    above: &Seq<Option<usize>>,
    row: &Seq<usize>,
    list: &mut Seq<Option<usize>>,
    part: &Part,
) -> Result<(), AllocError>
    ensures { OnOk result (list.new ≡ list.old ++ part_behind above.now row.now part.now) }
{
    match part {
        Part::Comb { .. } => Ok(()),
        Part::Flop { clock, .. } => {
            list.push(place_above(above, row, *clock))?;
            Ok(())
        }
        Part::Gate { .. } => Ok(()),
    }
}

/// For each register the place of the clock gate behind which it stands, or none.
fn gates_behind(
    alloc: Global,
    circuit: &Circuit,
    above: &Seq<Option<usize>>,
    row: &Seq<usize>,
) -> Result<Seq<Option<usize>>, AllocError>
    ensures { IfOk result (λ of. of ≡ flat_map (part_behind above.now row.now) circuit.now.parts) }
{
    let mut list = Seq::new(alloc);
    for part in circuit.parts.as_slice() {
        push_behind(above, row, &mut list, part)?;
    }
    Ok(list)
}
