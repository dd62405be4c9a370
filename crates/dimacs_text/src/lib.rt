//! Formulas in DIMACS CNF form, as the SAT competitions have them: lines of comments, which begin with `c`, the line
//! `p cnf VARS CLAUSES`, and then each clause as signed variables with a 0 after the last one, over any lines.
//!
//! Read `specs/Texts.antt` first, which text is which formula, and `specs/Faults.antt`, why a text is none. `read_dimacs` reads a
//! text. What is told of a formula is left to the crates above.
#![tactic(auto)]

mod counts;
mod faults;
mod formulas;
mod headed;
mod readings;
mod tokens;

pub use faults::DimacsFault;
pub use formulas::read_dimacs;
pub use headed::Headed;
