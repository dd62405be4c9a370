//! Selections as callers see them.
use crate::warnings::Warning;
use net_model::Claim;
use sdcv_base::{Edge, Kind, Name, Seq};

/// What an exception does.
#[derive(Drop)]
pub enum Listing {
    /// It claims something of so many pairs, at these changes of their starts.
    Claiming(Kind, Edge, u64),
    /// It is a `-hold` command, of which nothing is claimed.
    Hold,
    /// This option, which it has, sets it aside.
    Aside(Name),
    /// It is a `-hold` command of a false path that claims the hold side of so many pairs, at these changes of their starts.
    HoldSide(Edge, u64),
}

/// An exception, the line of its first byte, from 1, and the warnings of its objects: those after `-from` or the like, after each
/// `-through`, and after `-to`.
#[derive(Drop)]
pub struct CommandLine {
    pub line: u64,
    pub listing: Listing,
    pub warnings: Seq<Warning>,
}

/// A selected pair: its command, by its place among the exceptions from 1, and the names of its start and its end.
#[derive(Drop)]
pub struct PairLine {
    pub command: u64,
    pub start: Name,
    pub end: Name,
}

/// All exceptions of a script, and the pairs that they select, each with its claim at the same place.
#[derive(Drop)]
pub struct Selected {
    pub commands: Seq<CommandLine>,
    pub pairs: Seq<PairLine>,
    pub claims: Seq<Claim>,
}
