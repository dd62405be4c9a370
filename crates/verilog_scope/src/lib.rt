//! What the names of a Verilog module stand for (IEEE 1364-2005): which are nets, of which range, and the numbers of
//! their bits.
//!
//! `Scope::of` is the call to read first: from the declarations of a module to its scope, or the first rule that they
//! break. A scope answers which nets a name or a selection of its bits is. What is connected to what is left to the crate
//! above.
#![tactic(auto)]

mod bits;
mod decls;
mod implied;
mod ranges;
mod scopes;
mod standing;

pub use bits::indexed_name;
pub use decls::{Decl, add_new, add_one};
pub use netlist_types::VerFault;
pub use ranges::{Run, width};
pub use scopes::Scope;
