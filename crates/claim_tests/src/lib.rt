//! Claims of small designs, beside what is worked out by hand: the registers near them, the clauses that an induction tries,
//! further ones among them, and those that it keeps, the verdicts, and certificates as values and as texts: those that are written here, and those
//! of what is found, made, written, cut off, read and checked.
//!
//! This crate has tests alone. `finding.rt` is also how a caller comes from claims to a text that is accepted. `wants.rt`
//! says how it is seen what a row wants of the claims of a design.
#![tactic(auto)]

#[cfg(test)]
mod answers;
#[cfg(test)]
#[cfg(test)]
mod cases;
#[cfg(test)]
mod certificates;
#[cfg(test)]
mod clauses;
#[cfg(test)]
mod designs;
#[cfg(test)]
mod finding;
#[cfg(test)]
mod judged_claims;
#[cfg(test)]
mod kept_clauses;
#[cfg(test)]
mod lines;
#[cfg(test)]
mod lists;
#[cfg(test)]
mod machines;
#[cfg(test)]
mod texts;
#[cfg(test)]
mod wanted_answers;
#[cfg(test)]
mod wants;
