//! What is found out about all selected pairs: the clauses that are kept for their claims, a verdict on each claim, and the
//! certificate and the report that tell it.
//!
//! Read `specs/Judgements.antt` first: what is promised of all verdicts together. `judge` finds them, with the clauses that the
//! search of an `InvSearch` keeps, `certificate` writes what an independent check accepts, and `report` writes what is printed.
//! `Progress` is told how far `judge` is. How a clause is kept and how a claim is proved is said in the crates below. `laws.rt`
//! says why an invariant that was found elsewhere is enough.
#![tactic(auto)]

mod certificates;
mod judged;
mod judging;
mod laws;
mod reports;
mod searches;

pub use certificates::certificate;
pub use judged::Judged;
pub use judging::judge;
pub use laws::invariant_is_enough;
pub use pair_prove::{Progress, Silent};
pub use reports::report;
pub use searches::InvSearch;
