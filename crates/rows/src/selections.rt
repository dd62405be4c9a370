//! Selections as lines: first each exception, then each pair.
use net_model::{Claim, Edge, Kind};
use selected_types::{CommandLine, Listing, PairLine, Selected, Warning};
use std::alloc::AllocError;

// An edge, where it is not any.
fn edge_word(edge: Edge) -> &'static str {
    match edge {
        Edge::Any => "",
        Edge::Rise => " rise",
        Edge::Fall => " fall",
    }
}

fn push_kind(text: &mut String, kind: Kind) -> Result<(), AllocError> {
    match kind {
        Kind::False => text.push_str("false"),
        Kind::Multi(k) => write!(text, "multi {k}"),
    }
}

fn push_listing(text: &mut String, listing: &Listing) -> Result<(), AllocError> {
    match listing {
        Listing::Claiming(kind, edge, pairs) => {
            push_kind(text, *kind)?;
            write!(text, "{} {pairs}", edge_word(*edge))
        }
        Listing::Hold => text.push_str("hold"),
        Listing::Aside(option) => write!(text, "aside {option}"),
        Listing::HoldSide(edge, pairs) => write!(text, "false hold{} {pairs}", edge_word(*edge)),
    }
}

fn push_warning(text: &mut String, warning: &Warning) -> Result<(), AllocError> {
    match warning {
        Warning::Nothing(pattern) => write!(text, " nothing {pattern}"),
        Warning::Dropped(pattern, count) => write!(text, " dropped {pattern} {count}"),
        Warning::Several(pattern) => write!(text, " several {pattern}"),
        Warning::Crossed(count) => write!(text, " crossed {count}"),
        Warning::Beyond(count) => write!(text, " beyond {count}"),
    }
}

// Its line in the script, what it is, and its warnings.
fn push_command(text: &mut String, command: &CommandLine) -> Result<(), AllocError> {
    write!(text, "{} ", command.line)?;
    push_listing(text, &command.listing)?;
    for warning in command.warnings.as_slice() {
        push_warning(text, warning)?;
    }
    text.push_str("\n")
}

// How many pins stand in each through set.
fn push_through(text: &mut String, claim: &Claim) -> Result<(), AllocError> {
    if claim.through.len() > 0 {
        text.push_str(" through")?;
    }
    for set in claim.through.as_slice() {
        write!(text, " {}", set.pins().len())?;
    }
    Ok(())
}

// The edge, the lag and the hazard, where there are any.
fn push_manner(text: &mut String, claim: &Claim) -> Result<(), AllocError> {
    text.push_str(edge_word(claim.edge))?;
    if claim.lag > 0 {
        write!(text, " lag {}", claim.lag)?;
    }
    text.push_str(if claim.hazard { " hazard\n" } else { "\n" })
}

// The place of its exception, its start and its end, and what its claim asks.
fn push_pair(text: &mut String, pair: &PairLine, claim: &Claim) -> Result<(), AllocError> {
    write!(text, "{} {} -> {}", pair.command, pair.start, pair.end)?;
    push_through(text, claim)?;
    push_manner(text, claim)
}

fn push_commands(text: &mut String, commands: &[CommandLine]) -> Result<(), AllocError> {
    for command in commands {
        push_command(text, command)?;
    }
    Ok(())
}

fn push_pairs(text: &mut String, pairs: &[PairLine], claims: &[Claim]) -> Result<(), AllocError> {
    for (pair, claim) in pairs.iter().zip(claims) {
        push_pair(text, pair, claim)?;
    }
    Ok(())
}

/// What is selected.
pub fn push_selected(text: &mut String, selected: &Selected) -> Result<(), AllocError> {
    push_commands(text, selected.commands.as_slice())?;
    push_pairs(text, selected.pairs.as_slice(), selected.claims.as_slice())
}
