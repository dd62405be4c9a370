//! The prime cubes of a Boolean function, and the cubes that a coding takes.
//!
//! Read `primes` first, then `cell_of`. Prime cubes are the prime implicants of the function and of its complement (Quine,
//! McCluskey). What is a cube is said in query_model's `specs/Tables`, and which cubes are prime in `specs/Defined`. Which clauses
//! a cube gives, and which places count, is left to the crates above.
#![tactic(auto)]

mod cells;
mod implicants;

pub use cells::{Cell, cell_of};
pub use implicants::primes;
