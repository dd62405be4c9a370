//! A netlist has one design. The law is the contract of a call that does nothing.
ghost use Rattle.linked_types.specs.declared.faults.LinkFault.TheVariants.{Memory};
ghost use Rattle.link_defs.specs.Faults.{IsCause, IsFaultless};
ghost use Rattle.link_defs.specs.Links.{IsLinked};
ghost use Rattle.one_design.specs.Answers.{IsOneAnswer};

use cell_types::Library;
use link_defs::CutSource;
use linked_types::LinkOptions;

/// A netlist without a fault, of which cells may be cut out, has at most one design with its names, and nothing but want of memory
/// is a cause beside it.
pub fn one_linked(cut: &CutSource, library: &Library, options: &LinkOptions)
    ensures { IsOneAnswer (λ l. IsLinked cut.now library.now options.now l × IsFaultless cut.now library.now options.now)
        (IsCause cut.now library.now options.now) Memory }
{}
