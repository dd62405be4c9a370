//! Certificates as a text, both ways.
//!
//! Begin with `specs/Certs`: the text of a certificate, by its writer. `read_cert` reads it back, or says which version it
//! is of, or exactly where the bytes stop being the beginning of one (`specs/Causes`). What a certificate proves is left
//! to the crates that check it. `write_cert` writes the certificate of what was found.
#![tactic(auto)]

mod pairs;
mod proofs_at;
mod reading;
mod writing;

pub use reading::read_cert;
pub use writing::write_cert;
