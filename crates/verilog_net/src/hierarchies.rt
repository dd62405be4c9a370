//! The modules of a text by name, each with its scope.
ghost use Rattle.std.specs.Prelude.{◌≡◌, slice_get};
ghost use Rattle.texts.specs.Rules.{Gives};
ghost use Rattle.verilog_scope.specs.Fails.{Fails};
ghost use Rattle.verilog_scope.specs.Folds.{each};
ghost use Rattle.verilog_scope.specs.Scopes.{scope_of};
ghost use Rattle.verilog_net.specs.Hierarchies as spec;

use sdcv_base::{Name, Seq};
use std::alloc::Global;
use texts::NameTable;
use verilog_scope::{Scope, VerFault, add_new, width};
use verilog_syntax::ModuleDecl;

/// The modules of a text: their names, and at the same place the scope of each; and whether the netlist is read wide.
#[derive(Drop)]
pub struct Hierarchy {
    pub names: NameTable,
    pub scopes: Seq<Scope>,
    pub wide: bool,
}

impl Hierarchy {
    /// The modules that these declarations make. `TwiceName` is a name that two of them have.
    #[tactic(auto, unfolding(crate::specs::Hierarchies::hierarchy_of))]
    pub fn of(alloc: Global, decls: &[ModuleDecl], wide: bool) -> Result<Hierarchy, VerFault>
        ensures { Gives Fails (λ hierarchy. hierarchy) result (spec.hierarchy_of wide decls.now) }
    {
        let mut names = NameTable::new(alloc);
        add_new(alloc, &mut names, decls)?;
        let scopes = scopes(alloc, decls)?;
        Ok(Hierarchy {
            names,
            scopes,
            wide,
        })
    }

    /// Whether connections of an instance of the module at a place may have any width. Where there is none, it is of a cell.
    pub fn takes_any_width(&self, place: usize) -> bool
        ensures { result ≡ spec.takes_any_width self.now.wide (slice_get self.now.scopes place) }
    {
        self.wide && self.scopes.as_slice().get(place).is_none()
    }

    /// Whether so many wires fit this pin of the module at a place. Where there is none, it is a cell's.
    pub fn fits(&self, place: usize, pin: &Name, count: usize) -> bool
        ensures { result ≡ spec.fits (slice_get self.now.scopes place) pin.now count }
    {
        match self.scopes.as_slice().get(place) {
            None => count == 1,
            Some(inner) => {
                let decl = inner.decl(pin);
                match &decl.dir {
                    None => true,
                    Some(_) => count == width(&decl.range),
                }
            }
        }
    }
}

fn scopes(alloc: Global, decls: &[ModuleDecl]) -> Result<Seq<Scope>, VerFault>
    ensures { Gives Fails (λ scopes. scopes) result (each scope_of decls.now) }
{
    let mut found = Seq::new(alloc);
    for decl in decls {
        let scope = Scope::of(alloc, decl)?;
        found.push(scope)?;
    }
    Ok(found)
}
