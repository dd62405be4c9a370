//! The law of behaviours. It is the contract of a call that does nothing, for callers that cite it.
ghost use Rattle.std.specs.Prelude.{ℕ, ◌+◌, Bool, List};
ghost use Rattle.link_defs.specs.Designs.{drivers_by};
ghost use Rattle.link_defs.specs.Links.{IsLinked};
ghost use Rattle.netlist_runs.specs.Behaviours.{AreDriven, Behaves, IsShownByOneRun};

use cell_types::Library;
use link_defs::CutSource;
use linked_types::{LinkOptions, Linked};

/// Each behaviour of a linked netlist, whatever the cells do that are cut out of it, is exactly one run of the design, of each
/// number of cycles.
///
/// What registers and clock gates read as data is driven.
pub fn behaves_as_run(source: &CutSource, library: &Library, options: &LinkOptions, linked: &Linked)
    ensures run { (is : IsLinked source.now library.now options.now linked.now) → (v : ℕ → ℕ → Bool) (bits : ℕ → List Bool)
        → Behaves is.circuit is.tree linked.now.design v bits
        → (n : ℕ) → IsShownByOneRun linked.now.design (drivers_by is.circuit is.order) v bits (n + 1) }
    ensures driven { (is : IsLinked source.now library.now options.now linked.now) → AreDriven is.circuit (drivers_by is.circuit is.order) }
{}
