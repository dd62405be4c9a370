//! The check of a certificate's text: any bytes, from whomever.
//!
//! `check_cert` reads the text and checks the certificate that it spells. How it is spelled is said in `cert_text`, and when it is
//! accepted in `cert_defs`; the solver and the searches are not below this crate. Who writes the certificate of what was found cites
//! `found_is_writable`: its text is accepted.
#![tactic(auto)]

mod calls;

pub use calls::{check_cert, found_is_writable, written_is_accepted};
