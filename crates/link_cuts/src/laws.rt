//! The laws of cutting. They are the contracts of calls that do nothing, for callers that cite them.
ghost use Rattle.std.specs.Prelude.{◌≡◌, []};
ghost use Rattle.link_defs.specs.declared.circuits.Circuit.{Circuit as CircuitRecord};
ghost use Rattle.link_defs.specs.Cuts.{IsCut};

use link_defs::{Circuit, CutCell};
use sdcv_base::Seq;

/// What is left of a circuit where cells are cut out is one circuit, whatever rows mark its clock tree.
pub fn cuts_are_one(cells: &Seq<CutCell>)
    ensures { (c k j : CircuitRecord) → IsCut c cells.now k → IsCut c cells.now j → k ≡ j }
{}

/// Of a circuit of which nothing is cut out all is left.
pub fn nothing_is_cut(circuit: &Circuit)
    ensures { IsCut circuit.now [] circuit.now }
{}
