//! Graphs that were saved, read back and run beside what is worked out by hand.
use crate::graphs::{Graph, graph_of};
use crate::sessions::Session;
use std::alloc::AllocError;

// The graph of a file.
fn graph_in(session: &Session, name: &str) -> Result<Option<Graph>, AllocError> {
    let text = String::from_utf8_lossy(session.alloc(), session.bytes(name))?;
    graph_of(session.alloc(), text.as_str())
}

/// `graph FILE`: the graph's inputs and latches, and whether its conjunctions are as many as the last call told.
pub fn tell_graph(session: &Session, name: &str, out: &mut String) -> Result<(), AllocError> {
    let Some(graph) = graph_in(session, name)? else {
        return out.push_str("no graph\n");
    };
    let (inputs, latches, gates) = (graph.inputs, graph.latches, graph.gates);
    write!(out, "inputs {inputs} latches {latches} gates ")?;
    let told = format!(in session.alloc(); " gates {gates}\n")?;
    if session.bytes("printed").ends_with(told.as_bytes()) {
        return out.push_str("as told\n");
    }
    writeln!(out, "{gates}")
}

/// `bads FILE FIRST STEPS`: the bad literal step by step, given the first bits of the registers and a word of input bits for
/// each step.
pub fn tell_bads(session: &Session, more: &str, out: &mut String) -> Result<(), AllocError> {
    let mut words = more.splitn(3, ' ');
    let (Some(name), Some(first), Some(steps)) = (words.next(), words.next(), words.next()) else {
        return out.push_str("bads FILE FIRST STEPS\n");
    };
    let Some(graph) = graph_in(session, name)? else {
        return out.push_str("no graph\n");
    };
    let bads = graph.bads(session.alloc(), first, steps)?;
    out.push_str(bads.as_str())?;
    out.push_str("\n")
}
