//! The lowest crates' calls, each against what is counted by hand: lists, names, decimals, orders, a host in memory, tables of
//! names. And what no contract says of the real host: that the files of the system hold what was saved and give it back,
//! what stands after a save that failed, and what is told on standard error; each of these tests works in files of its own.
//!
//! This crate has tests alone.
#![tactic(auto)]

#[cfg(test)]
mod bases;
#[cfg(test)]
mod faulty_files;
#[cfg(test)]
mod hosts;
#[cfg(test)]
mod orders;
#[cfg(test)]
mod rereads;
#[cfg(test)]
mod tables;
