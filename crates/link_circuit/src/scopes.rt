//! The full names of the nets of instances, in one table.
ghost use Rattle.std.specs.Prelude.{◌≡◌, ℕ, Bool, List, [], ◌∷◌, ◌++◌, length, true, nat_lt, if◌then◌else◌, slice_index_or, IfOk, OnOk, IfErr};
ghost use Rattle.link_defs.specs.CellNames.{AreNetNames};
ghost use Rattle.link_defs.specs.Designs.{number_by};
ghost use Rattle.link_defs.specs.Flatten.{Flat, full_names};
ghost use Rattle.link_circuit.specs.Scopes.{named, kept_names, IsTableOf, IsTwice, IsAddedIf, IsNumberedBy};
ghost use Rattle.link_circuit.specs.Tables.{IsOther};
ghost use Rattle.sdcv_base.specs.Seqs.{is_marked as marked};

use crate::faults::NameFault;
use crate::tables::{NetTable, add_name};
use link_items::full_name;
use linked_types::NetName;
use sdcv_base::{Name, Seq};
use std::alloc::{AllocError, Global};
use texts::NameTable;

impl NetTable {
    /// The empty table.
    pub fn new(alloc: Global) -> NetTable
        ensures { (marks : List Bool) → IsTableOf marks [] result.names result.nets }
    {
        NetTable {
            names: NameTable::new(alloc),
            nets: Seq::new(alloc),
        }
    }

    /// Adds the full names of the nets of an instance that are marked: `prefix` and each of these names, with the net at
    /// the same place.
    pub fn add_scope(
        &mut self,
        alloc: Global,
        marks: &Seq<bool>,
        prefix: &Name,
        names: &Seq<Name>,
        nets: &Seq<usize>,
    ) -> Result<(), NameFault>
        requires table { length self.old.nets ≡ length self.old.names }
        requires nets { length nets.now ≡ length names.now }
        ensures table { OnOk result (length self.new.nets ≡ length self.new.names) }
        ensures ok { OnOk result ((pairs : List (List ℕ × ℕ)) → IsTableOf marks.now pairs self.old.names self.old.nets
            → IsTableOf marks.now (pairs ++ named prefix.now names.now nets.now) self.new.names self.new.nets) }
        ensures err { IfErr result (λ e. (pairs : List (List ℕ × ℕ)) → IsTableOf marks.now pairs self.old.names self.old.nets
            → IsTwice marks.now (pairs ++ named prefix.now names.now nets.now) e) }
    {
        for k in 0..nets.len() {
            let net = nets.at(k);
            let marked = is_marked(marks, net);
            add_marked(alloc, self, marked, prefix, names.item(k), net)?;
        }
        Ok(())
    }

    /// The names of the nets that have a number below `count`, with these numbers: the names of a design.
    pub fn net_names(
        &self,
        alloc: Global,
        numbers: &Seq<usize>,
        count: usize,
    ) -> Result<Seq<NetName>, AllocError>
        requires { length self.now.nets ≡ length self.now.names }
        ensures list { IfOk result (λ list. list ≡ kept_names numbers.now count self.now.names self.now.nets) }
        ensures names { IfOk result (λ list. (marks : List Bool) (flat : Flat) (drivers : List ℕ)
            → IsTableOf marks (full_names flat) self.now.names self.now.nets → IsNumberedBy marks drivers numbers.now count
            → AreNetNames flat drivers (number_by drivers) list) }
    {
        let mut list = Seq::new(alloc);
        for k in 0..self.nets.len() {
            let number = number_in(numbers, count, self.nets.at(k));
            if let Some(name) = self.names.name(k) {
                push_kept(alloc, &mut list, name, number, count)?;
            }
        }
        Ok(list)
    }
}

/// The number of a net, and the count where it has none.
fn number_in(numbers: &Seq<usize>, count: usize, net: usize) -> usize
    ensures { result ≡ slice_index_or numbers.now net count }
{
    if net < numbers.len() {
        numbers.at(net)
    } else {
        count
    }
}

/// Appends a name with a number below the count.
fn push_kept(
    alloc: Global,
    list: &mut Seq<NetName>,
    name: &Name,
    number: usize,
    count: usize,
) -> Result<(), AllocError>
    ensures { OnOk result (list.new ≡ list.old ++ (if nat_lt number count then (record { name = name.now; net = number }) ∷ [] else [])) }
{
    if number < count {
        let name = name.copy(alloc)?;
        list.push(NetName { name, net: number })?;
    }
    Ok(())
}

/// Whether a net is marked.
fn is_marked(marks: &Seq<bool>, net: usize) -> bool
    ensures { result ≡ marked marks.now net }
{
    net < marks.len() && marks.at(net)
}

/// Adds a full name with its net, if the net is marked.
fn add_marked(
    alloc: Global,
    table: &mut NetTable,
    marked: bool,
    prefix: &Name,
    name: &Name,
    net: usize,
) -> Result<(), NameFault>
    requires { length table.old.nets ≡ length table.old.names }
    ensures ok { OnOk result (IsAddedIf marked (record { name = prefix.now ++ name.now; net = net }) table.old table.new) }
    ensures err { IfErr result (λ e. (marked ≡ true) × IsOther (record { name = prefix.now ++ name.now; net = net }) table.old.names table.old.nets e) }
{
    if !marked {
        return Ok(());
    }
    let name = full_name(alloc, prefix, name)?;
    add_name(
        alloc,
        &mut table.names,
        &mut table.nets,
        &NetName { name, net },
    )
}
