//! A source without the instances that are cut out of it.
ghost use Rattle.std.specs.Prelude.{◌≡◌, ◌≢◌, IfOk, IfErr, OnOk};
ghost use Rattle.netlist_types.specs.Lawful.{IsLawful};
ghost use Rattle.cell_types.specs.Libraries.{IsLawful as IsLawfulLibrary};
ghost use Rattle.linked_types.specs.declared.faults.LinkFault.{LinkFault as FaultRecord};
ghost use Rattle.linked_types.specs.declared.faults.LinkFault.TheVariants as fault;
ghost use Rattle.link_defs.specs.Cuts.{IsLawfulCut};
ghost use Rattle.cut_source.specs.Sources.{HasTop, IsCutCause, IsCutOf, IsTopAt};

use crate::below::names_below;
use crate::modules::{items_cut, modules_left};
use crate::tops::top_place;
use cell_types::Library;
use link_defs::CutSource;
use link_items::Netlist;
use linked_types::LinkFault;
use netlist_types::Source;
use run_options::Cutting;
use std::alloc::{AllocError, Global};

/// The modules below the top module, without the instances that are cut out, and these. `NoTop` tells how many modules could be
/// the top where none is named, and `BadSetting` the name of the top module where no module has it.
pub fn cut(
    alloc: Global,
    source: &Source,
    library: &Library,
    cutting: &Cutting,
) -> Result<CutSource, LinkFault>
    requires source { IsLawful source.now }
    requires library { IsLawfulLibrary library.now.cells }
    ensures ok { IfOk result (IsCutOf source.now library.now cutting.now) }
    ensures lawful { IfOk result IsLawfulCut }
    ensures top { IfOk result (HasTop source.now library.now cutting.now) }
    ensures err { IfErr result (IsCutCause source.now cutting.now.top) }
    ensures none { OnOk result ((f : FaultRecord) → f ≢ fault.Memory → IsCutCause source.now cutting.now.top f → ⊥) }
{
    let netlist = Netlist::of(alloc, source, library)?;
    let place = top_place(alloc, &netlist, &cutting.top)?;
    let cut = cut_below(alloc, &netlist, cutting, place)?;
    Ok(cut)
}

/// The modules below the module at a place, without the instances that are cut out, and these.
fn cut_below(
    alloc: Global,
    netlist: &Netlist,
    cutting: &Cutting,
    top: usize,
) -> Result<CutSource, AllocError>
    requires { IsTopAt netlist.now.source.now cutting.now.top top }
    ensures { IfOk result (IsCutOf netlist.now.source.now netlist.now.library.now cutting.now) }
{
    let names = names_below(alloc, netlist, &cutting.free, top)?;
    let modules = modules_left(alloc, netlist, &cutting.free, &names)?;
    let items = items_cut(alloc, netlist, &cutting.free, &names)?;
    let source = Source { modules };
    Ok(CutSource { source, items })
}
