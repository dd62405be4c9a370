//! What is read and printed around a run, each told by hand: words and the commands that they name, reports as they are
//! printed and read back, their groups and the gate of a build, answers of replays and checks, waves of named bits and of
//! runs, the text of a graph.
//!
//! This crate has tests alone.
#![tactic(auto)]

#[cfg(test)]
mod accepted_gates;
#[cfg(test)]
mod answers;
#[cfg(test)]
mod builders;
#[cfg(test)]
mod cases;
#[cfg(test)]
mod commands;
#[cfg(test)]
mod graphs;
#[cfg(test)]
mod groups;
#[cfg(test)]
mod ranges;
#[cfg(test)]
mod read_cases;
#[cfg(test)]
mod read_reports;
#[cfg(test)]
mod reports;
#[cfg(test)]
mod stimuli;
#[cfg(test)]
mod tellings;
#[cfg(test)]
mod wave_runs;
#[cfg(test)]
mod wave_texts;
