//! When a certificate is accepted for a design and its claims, and why it is refused.
//!
//! Begin with `specs/`: `Listed` (what is asked of a certificate before any formula), `Accepted` (when it is accepted, and with
//! which list of claims), and `Refused` (why it is not, in the order in which the causes are looked for). What follows is in
//! `laws.rt`: the listed claims of an accepted certificate hold in every run from reset, a certificate with a cause is accepted
//! with no list, and the certificate of what was found is accepted.
//!
//! Nothing here reads a text, builds a formula or searches.
#![tactic(auto)]

mod laws;

pub use laws::{accepted_hold, justified_are_accepted, one_list, refused};
