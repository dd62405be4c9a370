//! The design of a source and a library.
ghost use Rattle.std.specs.Prelude.{◌≡◌, ◌≤◌, ◌++◌, ℕ, List, All, map, IfOk, IfErr, OnOk};
ghost use Rattle.cell_types.specs.Libraries.{IsLawful as IsLawfulLibrary};
ghost use Rattle.link_defs.specs.Faults.{IsCause, IsFaultless};
ghost use Rattle.link_defs.specs.Links.{IsLinked};
ghost use Rattle.linked_types.specs.Usable.{IsUsable};
ghost use Rattle.link_tops.specs.Tops.{IsTop};
ghost use Rattle.link_design.specs.declared.designs.Held.{Held as HeldRecord};
ghost use Rattle.link_design.specs.Lawful.{IsLawfulCircuit};
ghost use Rattle.link_design.specs.Made.{IsMade};
ghost use Rattle.link_defs.specs.CellNames.{Leaf as LeafRecord};
ghost use Rattle.link_circuit.specs.Flats.{AreScopes, IsUnrecursive};
ghost use Rattle.link_items.specs.Items.{module_at, AreLeavesAt};
ghost use Rattle.link_defs.specs.declared.circuits.Circuit.{Circuit as CircuitRecord};
ghost use Rattle.link_defs.specs.declared.cuts.CutItem.{CutItem as CutItemRecord};
ghost use Rattle.link_defs.specs.Cuts.{IsFitItem, IsLawfulCut, cut_names as names_of_cuts, free_pins, pin_name, sink_pins};
ghost use Rattle.link_defs.specs.Designs.{number_by};
ghost use Rattle.link_defs.specs.Judged.{FlatNetlist};
ghost use Rattle.link_defs.specs.GatedDesigns.{enabled_drivers};
ghost use Rattle.linked_types.specs.declared.names.CellName.{CellName as CellNameRecord};
ghost use Rattle.net_model.specs.declared.netlist.Gate.{Gate};
ghost use Rattle.icg_rewrite.specs.Rewritten.{rewritten};
ghost use Rattle.link_tops.specs.Clashes.{leaf_names, cut_names as spec_cut_names};
ghost use Rattle.net_link.specs.Made.{IsGatedDesign};
ghost use Rattle.net_link.specs.Places.{AreLeavesOf, ArePlacesOf};
ghost use Rattle.net_link.specs.Left.{IsCutAs, IsLeft, cells_of, tree_in};
ghost use Rattle.net_link.specs.Ports.{AreTopPorts};
ghost use Rattle.net_link.specs.Nets.{names_in, IsOfTwoNets, IsNetCause};
ghost use Rattle.net_link.specs.Stages.{AreAllNames, AreInner, IsFitting};

use crate::cells::{cell_names, net_count};
use crate::circuits::{enabled_design, flat_circuit, made_design};
use crate::designs::{GatedDesign, gated_of};
use crate::left::{CutOut, LeftCircuit, cut_out};
use crate::limits::check_bits;
use crate::nets::net_names;
use crate::ports::{TopPorts, top_ports};
use cell_types::Library;
use icg_rewrite::Gated;
use link_cuts::{cut_cell_names, cut_names, pin_names};
use link_defs::CutItem;
use link_design::CircuitDesign;
use link_gates::gated_solutions_are;
use link_items::Netlist;
use link_tops::one_top;
use linked_types::{CellName, CutName, LinkFault, LinkOptions, Linked, Names, NetName};
use netlist_types::Source;
use sdcv_base::{Name, Seq};
use std::alloc::{AllocError, Global};

/// The design of a source below its only top module, with all its names, where these instances are cut out of its modules; what
/// was cut out is told by its pins. A module may be instantiated many times; a net is named at each instance.
pub fn link(
    alloc: Global,
    source: &Source,
    items: &Seq<CutItem>,
    library: &Library,
    options: &LinkOptions,
) -> Result<Linked, LinkFault>
    requires cut { IsLawfulCut (record { source = source.now; items = items.now }) }
    requires library { IsLawfulLibrary library.now.cells }
    requires resets { options.now.reset_len ≤ 64 }
    ensures ok { IfOk result (IsLinked (record { source = source.now; items = items.now }) library.now options.now) }
    ensures usable { IfOk result IsUsable }
    ensures err { IfErr result (IsCause (record { source = source.now; items = items.now }) library.now options.now) }
    ensures none { OnOk result (IsFaultless (record { source = source.now; items = items.now }) library.now options.now) }
{
    let netlist = Netlist::of(alloc, source, library)?;
    let top = one_top(alloc, source)?;
    link_below(alloc, &netlist, items, top, options)
}

/// A design with its clock gates, and its names but those of its ports.
#[derive(Drop)]
struct InnerNames {
    gated: Gated,
    cells: Seq<CellName>,
    nets: Seq<NetName>,
}

/// Cells with further ones behind them.
fn joined(cells: Seq<CellName>, further: Seq<CellName>) -> Result<Seq<CellName>, AllocError>
    ensures { IfOk result (λ list. list ≡ cells ++ further) }
{
    let mut list = cells.into_vec();
    let mut more = further.into_vec();
    list.append(&mut more)?;
    Ok(Seq::from_vec(list))
}

/// The cells of a circuit by name, those that are cut out of it last.
fn all_cell_names(
    alloc: Global,
    library: &Library,
    left: &LeftCircuit,
    made: &GatedDesign,
) -> Result<Seq<CellName>, AllocError>
    requires { (found : List LeafRecord) × AreLeavesAt library.now left.now.flat.circuit.parts left.now.flat.leaves found }
    ensures own { IfOk result (λ list. (c : CircuitRecord) → IsCutAs c left.now.cut left.now.flat.circuit
        → map (λ (x : CellNameRecord). x.name) list ≡ leaf_names left.now.flat.leaves ++ spec_cut_names (cells_of left.now.cut)) }
    ensures names { IfOk result (λ list. (order : List Gate) (g : IsGatedDesign left.now.flat.circuit order made.now) (c : CircuitRecord)
        (found : List LeafRecord) → IsCutAs c left.now.cut left.now.flat.circuit → IsLawfulCircuit left.now.flat.circuit
        → AreLeavesAt library.now left.now.flat.circuit.parts left.now.flat.leaves found
        → AreAllNames c left.now made.now.tree (number_by (enabled_drivers left.now.flat.circuit order g.gates)) found list) }
    ensures usable { IfOk result (λ list. (order : List Gate) (c : CircuitRecord) (found : List LeafRecord)
        → IsCutAs c left.now.cut left.now.flat.circuit → IsLawfulCircuit left.now.flat.circuit
        → IsGatedDesign left.now.flat.circuit order made.now → AreLeavesOf left.now.flat.circuit.parts found
        → AreLeavesAt library.now left.now.flat.circuit.parts left.now.flat.leaves found → ArePlacesOf (rewritten made.now.gated) list) }
{
    let cells = cell_names(alloc, library, &left.flat, made)?;
    match &left.cut {
        None => Ok(cells),
        Some(cut) => {
            let nets = net_count(&made.gated)?;
            let further = cut_cell_names(alloc, &cut.pins, &cut.cells, &made.numbers, nets)?;
            let list = joined(cells, further)?;
            Ok(list)
        }
    }
}

/// The design of a circuit with its clock gates, and its names but those of its ports.
fn inner_names(
    alloc: Global,
    netlist: &Netlist,
    left: &LeftCircuit,
    made: CircuitDesign,
) -> Result<InnerNames, LinkFault>
    requires scopes { AreScopes netlist.now.source.now left.now.flat.scopes }
    requires lawful { IsLawfulCircuit left.now.flat.circuit }
    requires leaves { (found : List LeafRecord) × AreLeavesAt netlist.now.library.now left.now.flat.circuit.parts left.now.flat.leaves found }
    requires made { (held : HeldRecord) × IsMade left.now.flat.circuit held made }
    ensures ok { IfOk result (λ n. (held : HeldRecord) (m : IsMade left.now.flat.circuit held made)
        → AreInner netlist.now.source.now netlist.now.library.now left.now m.order n.gated n.cells n.nets) }
    ensures design { IfOk result (λ n. n.gated.design ≡ made.design) }
    ensures none { OnOk result ((name : List ℕ) → IsOfTwoNets (names_in netlist.now.source.now left.now.flat.scopes) left.now.flat.circuit name → ⊥) }
    ensures err { IfErr result (IsNetCause (names_in netlist.now.source.now left.now.flat.scopes) left.now.flat.circuit) }
{
    let nets = net_names(alloc, netlist, &left.flat, &made)?;
    let made = gated_of(alloc, &left.flat.circuit, made)?;
    let cells = all_cell_names(alloc, netlist.library, left, &made)?;
    let GatedDesign { gated, .. } = made;
    Ok(InnerNames { gated, cells, nets })
}

/// The names of what was cut out: the free nets, the sinks, and the references.
#[derive(Drop)]
struct CutNames {
    free: Seq<Name>,
    sinks: Seq<Name>,
    cuts: Seq<CutName>,
}

/// The names of what was cut out.
fn cut_names_of(alloc: Global, cut: &Option<CutOut>) -> Result<CutNames, AllocError>
    requires { (c : CircuitRecord) × (k : CircuitRecord) × IsCutAs c cut.now k }
    ensures free { IfOk result (λ n. (c k : CircuitRecord) → IsCutAs c cut.now k → n.free ≡ map pin_name (free_pins c (cells_of cut.now))) }
    ensures sinks { IfOk result (λ n. (c k : CircuitRecord) → IsCutAs c cut.now k → n.sinks ≡ map pin_name (sink_pins c (tree_in cut.now) (cells_of cut.now))) }
    ensures cuts { IfOk result (λ n. n.cuts ≡ names_of_cuts (cells_of cut.now)) }
{
    match cut {
        None => Ok(CutNames {
            free: Seq::new(alloc),
            sinks: Seq::new(alloc),
            cuts: Seq::new(alloc),
        }),
        Some(x) => {
            let free = pin_names(alloc, &x.cells, &x.pins.free)?;
            let sinks = pin_names(alloc, &x.cells, &x.pins.sinks)?;
            let cuts = cut_names(alloc, &x.cells)?;
            Ok(CutNames { free, sinks, cuts })
        }
    }
}

/// The design of what is left of the circuit below the top module, with all its names.
fn named_design(
    alloc: Global,
    netlist: &Netlist,
    top: usize,
    options: &LinkOptions,
    left: &LeftCircuit,
    ports: TopPorts,
) -> Result<Linked, LinkFault>
    requires top { IsTop netlist.now.source.now top }
    requires left { (items : List CutItemRecord) × (j : FlatNetlist) × IsLeft (record { source = netlist.now.source.now; items = items })
        netlist.now.library.now (module_at netlist.now.source.now top) options.now j left.now }
    requires ordered { IsUnrecursive netlist.now.source.now }
    requires ports { AreTopPorts (module_at netlist.now.source.now top) options.now ports }
    requires fitting { IsFitting (module_at netlist.now.source.now top) options.now }
    ensures ok { IfOk result (λ l. (items : List CutItemRecord) (j : FlatNetlist) → IsLeft (record { source = netlist.now.source.now; items = items })
        netlist.now.library.now (module_at netlist.now.source.now top) options.now j left.now
        → IsLinked (record { source = netlist.now.source.now; items = items }) netlist.now.library.now options.now l) }
    ensures usable { IfOk result IsUsable }
    ensures err { IfErr result (λ e. (items : List CutItemRecord) (j : FlatNetlist) → IsLeft (record { source = netlist.now.source.now; items = items })
        netlist.now.library.now (module_at netlist.now.source.now top) options.now j left.now
        → IsCause (record { source = netlist.now.source.now; items = items }) netlist.now.library.now options.now e) }
    ensures none { OnOk result ((items : List CutItemRecord) (j : FlatNetlist) → IsLeft (record { source = netlist.now.source.now; items = items })
        netlist.now.library.now (module_at netlist.now.source.now top) options.now j left.now
        → IsFaultless (record { source = netlist.now.source.now; items = items }) netlist.now.library.now options.now) }
{
    let TopPorts {
        ins,
        outs,
        clock,
        held,
    } = ports;
    let made = made_design(alloc, netlist, top, options, left, held)?;
    let inner = inner_names(alloc, netlist, left, made)?;
    let told = cut_names_of(alloc, &left.cut)?;
    let InnerNames { gated, cells, nets } = inner;
    gated_solutions_are(&left.flat.circuit, &gated);
    let design = enabled_design(alloc, gated)?;
    let names = Names {
        cells,
        ins,
        outs,
        nets,
        clock,
        free: told.free,
        sinks: told.sinks,
        cuts: told.cuts,
        assumed: Seq::new(alloc),
    };
    Ok(Linked { design, names })
}

/// The design below the top module.
fn link_below(
    alloc: Global,
    netlist: &Netlist,
    items: &Seq<CutItem>,
    top: usize,
    options: &LinkOptions,
) -> Result<Linked, LinkFault>
    requires top { IsTop netlist.now.source.now top }
    requires items { All (IsFitItem netlist.now.source.now) items.now }
    requires resets { options.now.reset_len ≤ 64 }
    ensures ok { IfOk result (IsLinked (record { source = netlist.now.source.now; items = items.now }) netlist.now.library.now options.now) }
    ensures usable { IfOk result IsUsable }
    ensures err { IfErr result (IsCause (record { source = netlist.now.source.now; items = items.now }) netlist.now.library.now options.now) }
    ensures none { OnOk result (IsFaultless (record { source = netlist.now.source.now; items = items.now }) netlist.now.library.now options.now) }
{
    let body = netlist.source.modules.item(top);
    check_bits(alloc, body, &options.clock, options.wide)?;
    let ports = top_ports(alloc, body, options)?;
    let c = flat_circuit(alloc, netlist, top, &options.clock)?;
    let left = cut_out(alloc, netlist, items, top, options, c)?;
    named_design(alloc, netlist, top, options, &left, ports)
}
