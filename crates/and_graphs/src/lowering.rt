//! Functions of the model as lines.
ghost use Rattle.std.specs.Prelude.{IfOk};
ghost use Rattle.net_model.specs.Form.{IsOver};
ghost use Rattle.and_graphs.specs.Graphs.{Keeps, Lowers};

use crate::graphs::{AndGraph, bit_literal, complement};
use net_model::{Args, Func, Node};
use std::alloc::AllocError;

impl AndGraph {
    /// The value of a function whose places are all below 7, given a literal for each place.
    pub fn lower(&mut self, func: &Func, args: &Args<u64>) -> Result<u64, AllocError>
        requires { IsOver 7 func.now }
        ensures keeps { Keeps self.old self.new }
        ensures means { IfOk result (Lowers self.old args.now func.now self.new) }
    {
        match &func.node {
            Node::Zero => Ok(bit_literal(false)),
            Node::One => Ok(bit_literal(true)),
            Node::Pin(place) => Ok(args.at(*place)),
            Node::Not(f) => {
                let f = self.lower(f, args)?;
                Ok(complement(f))
            }
            Node::And(f, g) => {
                let f = self.lower(f, args)?;
                let g = self.lower(g, args)?;
                self.both(f, g)
            }
            Node::Or(f, g) => {
                let f = self.lower(f, args)?;
                let g = self.lower(g, args)?;
                self.either(f, g)
            }
            Node::Xor(f, g) => {
                let f = self.lower(f, args)?;
                let g = self.lower(g, args)?;
                self.differs(f, g)
            }
        }
    }
}
