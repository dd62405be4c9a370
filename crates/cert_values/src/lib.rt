//! Certificates as values: kept clauses and pairs, each with its derivations, and why a certificate is refused.
//!
//! Begin with `specs/Certs`: which certificates have all their derivations, and which one is made of what was found. Of which
//! formulas each version speaks is said in `specs/Versions`. How a certificate is spelled, and when it is accepted, is left to the
//! crates above.
#![tactic(auto)]

mod certs;
mod faults;
mod versions;

pub use certs::{Cert, PairProof};
pub use faults::CertFault;
pub use versions::{coding_of, version_for};
