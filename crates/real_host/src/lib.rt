//! The host of a program: the files, the standard output and the standard error of the system.
//!
//! Read `RealHost` first. A call that fails is told on standard error by one line, but for a print into a pipe that is closed. A save replaces a file whole, by a
//! rename, or leaves the old one. That all bytes of a piece go to a writer, in order, and that a reader is read to its end
//! is proved (`specs/Pieces`); what the system's files hold afterwards no contract can say, and is tested in `base_tests`.
#![tactic(auto)]

mod pieces;
mod read_paths;
mod real_hosts;
mod rereads;
mod saves;
mod tellings;

pub use real_hosts::RealHost;
pub use rereads::read_again;
