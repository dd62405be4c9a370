//! Queries of an induction as clauses, and runs read back from models.
//!
//! Which clauses a query is, and that its models are exactly its answers, is said in query_model's `specs/`.
#![tactic(auto)]

mod cell_lists;
mod cells;
mod chosen_lits;
mod claims;
mod clauses;
mod codes;
mod cones;
mod cycles;
mod ends;
mod formulas;
mod free_bits;
mod input_values;
mod late_starts;
mod layers;
mod needed;
mod point_rows;
mod point_tables;
mod points;
mod prepared_designs;
mod problems;
mod runs;
mod sites;
mod tables;

pub use formulas::{formula, inv_formula};
pub use prepared_designs::Prepared;
pub use problems::Problem;
pub use runs::{read_back, read_stimulus};
