//! What functions give, which designs are sound and which claims fit, what small designs settle to and capture, late and
//! unknown starts included, paths through sets, claims decided by every stretch, and the replays of stimuli and their texts,
//! against values worked out by hand. Of designs with clock gates, what registers behind them capture in the rewritten
//! design, and a register that has no room for an enable.
//!
//! Captures are compared with a plain evaluator too, which goes back from the end by the rules of the layers. This crate has
//! tests alone.
#![tactic(auto)]

#[cfg(test)]
mod captures;
#[cfg(test)]
mod designs;
#[cfg(test)]
mod functions;
#[cfg(test)]
mod gated_building;
#[cfg(test)]
mod gated_edges;
#[cfg(test)]
mod lanes;
#[cfg(test)]
mod paths;
#[cfg(test)]
mod replays;
#[cfg(test)]
mod slow_layers;
#[cfg(test)]
mod sound_cases;
#[cfg(test)]
mod stimuli;
