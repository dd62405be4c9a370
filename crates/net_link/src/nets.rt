//! The full names of the nets of a design.
ghost use Rattle.std.specs.Prelude.{◌≡◌, ◌<◌, ℕ, List, length, IfOk, IfErr, OnOk};
ghost use Rattle.sdcv_base.specs.Seqs.{is_marked};
ghost use Rattle.link_design.specs.declared.designs.Held.{Held as HeldRecord};
ghost use Rattle.link_design.specs.Lawful.{IsLawfulCircuit};
ghost use Rattle.link_design.specs.Made.{IsMade};
ghost use Rattle.link_defs.specs.CellNames.{AreNetNames};
ghost use Rattle.link_defs.specs.Designs.{drivers_by, number_by};
ghost use Rattle.link_defs.specs.Flatten.{Flat, full_names};
ghost use Rattle.link_circuit.specs.Flats.{AreScopes};
ghost use Rattle.link_circuit.specs.Scopes.{IsTableOf, IsTwice};
ghost use Rattle.net_link.specs.Nets.{has_number as numbered, is_driven as driven, AreMarks, names_in, IsOfTwoNets, IsNetCause};

use link_circuit::{FlatCircuit, NameFault, NetTable};
use link_design::CircuitDesign;
use link_items::{Instance, Netlist};
use linked_types::{LinkFault, NetName};
use sdcv_base::Seq;
use std::alloc::{AllocError, Global};

/// Whether a net has a number in the design.
fn has_number(made: &CircuitDesign, net: usize) -> bool
    ensures { result ≡ numbered made.now net }
{
    net < made.numbers.len() && made.numbers.at(net) < made.design.nets
}

/// Whether a net is marked.
fn is_marked(marks: &Seq<bool>, net: usize) -> bool
    ensures { result ≡ is_marked marks.now net }
{
    net < marks.len() && marks.at(net)
}

/// Whether something drives a net: it is one of the design, or of the clock tree.
fn is_driven(made: &CircuitDesign, net: usize) -> bool
    ensures { result ≡ driven made.now net }
{
    has_number(made, net) || is_marked(&made.tree, net)
}

/// A mark for each net of the design and of the clock tree: those that something drives.
fn driven_nets(alloc: Global, made: &CircuitDesign, nets: usize) -> Result<Seq<bool>, AllocError>
    ensures { IfOk result (AreMarks made.now nets) }
{
    let mut marks = Seq::new(alloc);
    for net in 0..nets {
        marks.push(is_driven(made, net))?;
    }
    Ok(marks)
}

/// The full names of the nets of instances that are marked, in a table.
fn name_table(
    alloc: Global,
    netlist: &Netlist,
    scopes: &Seq<Instance>,
    marks: &Seq<bool>,
) -> Result<NetTable, NameFault>
    requires { AreScopes netlist.now.source.now scopes.now }
    ensures table { IfOk result (λ table. length table.nets ≡ length table.names) }
    ensures ok { IfOk result (λ table. IsTableOf marks.now (names_in netlist.now.source.now scopes.now) table.names table.nets) }
    ensures err { IfErr result (IsTwice marks.now (names_in netlist.now.source.now scopes.now)) }
{
    let mut table = NetTable::new(alloc);
    for k in 0..scopes.len() {
        let at = scopes.item(k);
        let names = &netlist.source.modules.item(at.body).nets;
        table.add_scope(alloc, marks, &at.prefix, names, &at.nets)?;
    }
    Ok(table)
}

/// The full names of the nets of a design, each once, with their numbers. `NameClash` tells a name of two nets that something
/// drives.
pub(crate) fn net_names(
    alloc: Global,
    netlist: &Netlist,
    c: &FlatCircuit,
    made: &CircuitDesign,
) -> Result<Seq<NetName>, LinkFault>
    requires scopes { AreScopes netlist.now.source.now c.now.scopes }
    requires lawful { IsLawfulCircuit c.now.circuit }
    requires made { (held : HeldRecord) × IsMade c.now.circuit held made.now }
    ensures ok { IfOk result (λ names. (held : HeldRecord) (m : IsMade c.now.circuit held made.now) (flat : Flat)
        → full_names flat ≡ names_in netlist.now.source.now c.now.scopes
        → AreNetNames flat (drivers_by c.now.circuit m.order) (number_by (drivers_by c.now.circuit m.order)) names) }
    ensures none { OnOk result ((name : List ℕ) → IsOfTwoNets (names_in netlist.now.source.now c.now.scopes) c.now.circuit name → ⊥) }
    ensures err { IfErr result (IsNetCause (names_in netlist.now.source.now c.now.scopes) c.now.circuit) }
{
    let marks = driven_nets(alloc, made, c.circuit.nets)?;
    match name_table(alloc, netlist, &c.scopes, &marks) {
        Ok(table) => Ok(table.net_names(alloc, &made.numbers, made.design.nets)?),
        Err(NameFault::Clash(name)) => Err(LinkFault::NameClash(name)),
        Err(NameFault::Memory) => Err(LinkFault::Memory),
    }
}
