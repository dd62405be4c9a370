//! Generated designs: the text of a netlist of the built-in cells, and that of its constraints, for a seed and a size.
//!
//! Read `specs/Texts.antt` first: it has the lines of the four blocks of which each design is made, and the two texts.
//! `specs/Draws.antt` says which blocks a seed draws, by the generator PCG32 (O'Neill, 2014). Nothing here reads a text.
#![tactic(auto)]

mod blocks;
mod constraints;
mod designs;
mod draws;
mod templates;

pub use designs::{Generated, generate};
