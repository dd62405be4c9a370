//! Checks a certificate against a design and its claims: Ok with the numbers of the listed claims exactly where it is accepted, and
//! then each of them holds in every run from reset.
//!
//! Read `checking.rt` first: the causes to refuse in their order, one function each. When a certificate is accepted is said in
//! `cert_defs`. The formulas are made from the design and the claims, one at a time; nothing is known of how the derivations were
//! found, and no memory is taken by a number that the certificate tells.
#![tactic(auto)]

mod checking;
mod inducting;
mod listing;
mod refuting;

pub use checking::check;
