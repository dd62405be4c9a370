//! What is looked up about the inputs, gates and register bits of a design, whichever query it is.
ghost use Rattle.std.specs.Prelude.{◌≡◌, IfOk};
ghost use Rattle.net_model.specs.Netlist.{IsSound};
ghost use Rattle.cnf_encode.specs.Coned.{gate_points, bit_points};
ghost use Rattle.cnf_encode.specs.Prepared.{ArePointTables};

use crate::input_values::input_values;
use crate::point_rows::places_by_point;
use net_model::Design;
use sdcv_base::Seq;
use std::alloc::{AllocError, Global};

/// The settings of inputs, and at which place each point stands among the inputs, the nets that gates drive, and the register
/// bits.
#[derive(Drop)]
pub struct PointTables {
    pub fixed: Seq<Option<bool>>,
    pub resets: Seq<Option<bool>>,
    pub inputs: Seq<Option<usize>>,
    pub gates: Seq<Option<usize>>,
    pub bits: Seq<Option<usize>>,
}

impl PointTables {
    /// The tables of a design.
    pub fn of(alloc: Global, design: &Design) -> Result<PointTables, AllocError>
        requires sound { IsSound design.now }
        ensures { IfOk result (ArePointTables design.now) }
    {
        let inputs = design.inputs.as_slice();
        let gates = gate_points(alloc, design)?;
        let bits = bit_points(alloc, design)?;
        let points = design.nets + design.regs.len();
        Ok(PointTables {
            fixed: input_values(alloc, &design.fixed, inputs.len())?,
            resets: input_values(alloc, &design.resets, inputs.len())?,
            inputs: places_by_point(alloc, inputs, design.nets)?,
            gates: places_by_point(alloc, &gates, design.nets)?,
            bits: places_by_point(alloc, &bits, points)?,
        })
    }
}

/// The net that each gate drives.
fn gate_points(alloc: Global, design: &Design) -> Result<Vec<usize>, AllocError>
    ensures { IfOk result (λ points. points.items ≡ gate_points design.now) }
{
    design.gates.as_slice().iter().map(|g| g.out).collect(alloc)
}

/// The point of each register's bit.
fn bit_points(alloc: Global, design: &Design) -> Result<Vec<usize>, AllocError>
    requires { IsSound design.now }
    ensures { IfOk result (λ points. points.items ≡ bit_points design.now) }
{
    let mut points = Vec::new(alloc);
    for r in 0..design.regs.len() {
        points.push(design.nets + r)?;
    }
    Ok(points)
}
