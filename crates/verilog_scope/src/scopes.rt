//! The nets of a module by number.
ghost use Rattle.std.specs.Prelude.{◌≡◌, ◌<◌, ◌||◌, ◌∷◌, ◌++◌, [], All, length, map, slice_index_or, IfOk, OnOk};
ghost use Rattle.texts.specs.Names.{is_among};
ghost use Rattle.texts.specs.Rules.{Gives};
ghost use Rattle.verilog_scope.specs.Decls.{is_declared};
ghost use Rattle.verilog_scope.specs.Fails.{Fails};
ghost use Rattle.verilog_scope.specs.Scopes as spec;
ghost use Rattle.verilog_scope.specs.Scopes.{IsNumbered};

use crate::bits::bit_name;
use crate::decls::{Decl, check_insts, decl_at, declares, listed_in};
use crate::implied::implied_wires;
use crate::ranges::{Run, selected, width};
use crate::standing::standing;
use netlist_types::VerFault;
use sdcv_base::{Name, Seq};
use std::alloc::{AllocError, Global};
use texts::NameTable;
use verilog_syntax::{ModuleDecl, Select};

/// What the names of a module stand for.
#[derive(Drop)]
pub struct Scope {
    /// The names of nets, in the order in which they first stand.
    pub names: NameTable,
    /// What is declared of each of them, by its place.
    pub decls: Seq<Decl>,
    /// Those that are wires without a declaration, and others that are declared.
    pub implied: NameTable,
    /// The number of the first net of each, by its place.
    pub bases: Seq<usize>,
}

impl Scope {
    /// The scope of a module.
    ///
    /// `TwiceName` is a name that stands twice in the port list, is declared twice, or is a port and a net of another
    /// range or a supply, or the name of two instances. `Syntax` is a direction that is declared of a name that the port
    /// list does not list, at that name.
    #[tactic(auto, unfolding(crate::specs::Scopes::scope_of), using(crate::proofs::ScopeLemmas::declares_length))]
    pub fn of(alloc: Global, decl: &ModuleDecl) -> Result<Scope, VerFault>
        ensures { Gives Fails (λ scope. scope) result (spec.scope_of decl.now) }
    {
        let listed = listed_in(alloc, &decl.head)?;
        let names = standing(alloc, decl)?;
        let decls = declares(alloc, &names, &listed, decl)?;
        check_insts(alloc, decl.items.as_slice())?;
        let implied = implied_wires(alloc, &names, &decls, decl)?;
        let bases = bases(alloc, decls.as_slice())?;
        Ok(Scope {
            names,
            decls,
            implied,
            bases,
        })
    }

    /// What is declared of a name.
    pub fn decl(&self, name: &Name) -> Decl
        ensures { result ≡ spec.decl_of self.now name.now }
    {
        decl_at(&self.decls, self.names.place(name))
    }

    /// The number of the first net of a name.
    pub fn base(&self, name: &Name) -> usize
        ensures { result ≡ spec.base_of self.now name.now }
    {
        self.base_at(self.names.place(name))
    }

    fn base_at(&self, place: usize) -> usize
        ensures { result ≡ slice_index_or self.now.bases place 0 }
    {
        self.bases.as_slice().get(place).copied().unwrap_or(0)
    }

    /// All nets of a name.
    pub fn bits(&self, name: &Name) -> Run
        ensures { result ≡ spec.all_bits self.now name.now }
    {
        let place = self.names.place(name);
        Run {
            first: self.base_at(place),
            count: width(&decl_at(&self.decls, place).range),
        }
    }

    /// Whether the name stands for nets.
    pub fn knows(&self, name: &Name) -> bool
        ensures { result ≡ spec.is_known self.now name.now }
    {
        self.knows_as(name, &self.decl(name))
    }

    /// Whether a name of which this is declared stands for nets.
    fn knows_as(&self, name: &Name, decl: &Decl) -> bool
        ensures { result ≡ (is_declared decl.now || is_among name.now self.now.implied) }
    {
        decl.is_declared() || self.implied.contains(name)
    }

    /// The nets of a selection of a name's bits, by number. None where the name stands for no net or has no such bits.
    #[tactic(auto, unfolding(crate::specs::Scopes::run_of))]
    pub fn run(&self, name: &Name, select: &Select) -> Result<Option<Run>, AllocError>
        ensures { IfOk result (λ run. run ≡ spec.run_of self.now name.now select.now) }
    {
        let place = self.names.place(name);
        let decl = decl_at(&self.decls, place);
        if !self.knows_as(name, &decl) {
            return Ok(None);
        }
        match selected(&decl.range, select) {
            None => Ok(None),
            Some(bits) => match self.base_at(place).checked_add(bits.first) {
                None => Err(AllocError),
                Some(first) => Ok(Some(Run {
                    first,
                    count: bits.count,
                })),
            },
        }
    }

    /// The names of these nets, which are told by their numbers.
    pub fn net_names(&self, alloc: Global, nets: &[usize]) -> Result<Seq<Name>, AllocError>
        requires numbered { IsNumbered self.now }
        requires nets { All (λ net. net < length (spec.net_names self.now)) nets.now }
        ensures { IfOk result (λ names. names ≡ map (spec.net_name self.now) nets.now) }
    {
        let mut names = Seq::from_vec(Vec::with_capacity(alloc, nets.len())?);
        for net in nets {
            self.push_net_name(alloc, &mut names, *net)?;
        }
        Ok(names)
    }

    fn push_net_name(
        &self,
        alloc: Global,
        names: &mut Seq<Name>,
        net: usize,
    ) -> Result<(), AllocError>
        requires numbered { IsNumbered self.now }
        requires net { net < length (spec.net_names self.now) }
        ensures { OnOk result (names.new ≡ names.old ++ spec.net_name self.now net ∷ []) }
    {
        let place = self.place_of_net(net);
        match self.names.name(place) {
            None => Ok(()),
            Some(name) => {
                let bit = net - self.base_at(place);
                names.push(bit_name(alloc, name, &decl_at(&self.decls, place).range, bit)?)?;
                Ok(())
            }
        }
    }

    /// The place of the name that a net is a bit of.
    fn place_of_net(&self, net: usize) -> usize
        requires numbered { IsNumbered self.now }
        requires net { net < length (spec.net_names self.now) }
        ensures { spec.IsBitOf self.now result net }
    {
        match self.bases.as_slice().binary_search(&net) {
            Ok(place) => place,
            Err(after) => after - 1,
        }
    }
}

/// The number of the first net of each name, where the nets are numbered name by name from 0. It wants memory where they
/// are more than can be numbered.
fn bases(alloc: Global, decls: &[Decl]) -> Result<Seq<usize>, AllocError>
    ensures { IfOk result (λ found. found ≡ spec.bases_from 0 decls.now) }
{
    let mut found = Seq::new(alloc);
    let mut next = 0usize;
    for decl in decls {
        found.push(next)?;
        let Some(more) = next.checked_add(width(&decl.range)) else {
            return Err(AllocError);
        };
        next = more;
    }
    Ok(found)
}
