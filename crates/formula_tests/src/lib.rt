//! The formulas of small designs, beside their answers found by going through all runs.
//!
//! For each row of a table, a design and a query, every assignment of the formula's variables and every run are tried: the
//! models are just the runs that answer the query by replay, and there are as many of them as another program has found.
//! The keys of a query, the rows and cubes of a function, the prime cubes of the cells of a usual library, and the sizes of
//! formulas in either coding are checked by hand. This crate has tests alone.
#![tactic(auto)]

#[cfg(test)]
mod cubes;
#[cfg(test)]
mod frames;
#[cfg(test)]
mod plain_answers;
#[cfg(test)]
mod prime_cells;
#[cfg(test)]
mod sizes;
#[cfg(test)]
mod tests;
