//! Selections and verdicts from tables.
ghost use Rattle.report_text.specs.Rows.{HasRows};

use net_model::{Claim, Edge, End, Phase, Start, Stimulus};
use proof_log::Derivation;
use run_options::RunOptions;
use sdcv_base::{Kind, Name, Seq};
use selected_types::{
    CommandLine, CutCells, Listing, Notices, PairLine, Selected, Skipped, Unjudged, Warning,
};
use std::alloc::{AllocError, Global};
use std::process::Abort;
use verdict_types::{Cause, Proof, Verdict};

#[derive(Clone, Copy)]
pub enum Does {
    Claims(Kind, Edge, u64),
    Holds,
    Aside(&'static str),
}

#[derive(Clone, Copy)]
pub enum Warns {
    Nothing(&'static str),
    Dropped(&'static str, u64),
}

/// An exception: its line, what it does, and its warnings.
#[derive(Clone, Copy)]
pub struct Exception(pub u64, pub Does, pub &'static [Warns]);

/// The bits of a stimulus: of the registers, and of the inputs in each cycle.
#[derive(Clone, Copy)]
pub struct Bits(pub &'static [bool], pub &'static [&'static [bool]]);

#[derive(Clone, Copy)]
pub enum Found {
    Single,
    Fixed,
    Depth(usize),
    Refuted(usize, Bits),
    Stays,
    Spent(Phase, usize),
    Free(usize, Bits),
    Cut,
}

/// A pair: its exception's number, the kind and the edge of the claim, the names of its start and its end, and what is found.
#[derive(Clone, Copy)]
pub struct Pair(
    pub u64,
    pub (Kind, Edge),
    pub &'static [u8],
    pub &'static [u8],
    pub Found,
);

/// What is told of the netlist: the names of its top module and its clock, where they are asked for by them, and which cells are cut
/// out, with how many and whether a path may lead through them.
#[derive(Clone, Copy)]
pub struct Cells(
    pub Option<&'static str>,
    pub Option<&'static str>,
    pub &'static [(&'static str, u64, bool)],
);

/// What is told beside the exceptions: which commands are passed over, with how many, where any may be; the lines and names of those
/// that are not judged; how many false paths have a hold side that is not judged; and what is told of the netlist.
#[derive(Clone, Copy)]
pub struct Tells(
    pub Option<&'static [(&'static str, u64)]>,
    pub &'static [(u64, &'static str)],
    pub u64,
    pub Cells,
);

/// A run's options, what it tells beside the exceptions, its exceptions and pairs, and its report as lines and as JSON.
#[derive(Clone, Copy)]
pub struct Case {
    pub options: RunOptions,
    pub tells: Tells,
    pub exceptions: &'static [Exception],
    pub pairs: &'static [Pair],
    pub text: &'static str,
    pub json: &'static str,
}

fn listing_of(alloc: Global, does: Does) -> Result<Listing, AllocError> {
    match does {
        Does::Claims(kind, edge, pairs) => Ok(Listing::Claiming(kind, edge, pairs)),
        Does::Holds => Ok(Listing::Hold),
        Does::Aside(option) => Ok(Listing::Aside(Name::new(alloc, option.as_bytes())?)),
    }
}

fn warning_of(alloc: Global, warns: Warns) -> Result<Warning, AllocError> {
    match warns {
        Warns::Nothing(pattern) => Ok(Warning::Nothing(Name::new(alloc, pattern.as_bytes())?)),
        Warns::Dropped(pattern, count) => {
            let pattern = Name::new(alloc, pattern.as_bytes())?;
            Ok(Warning::Dropped(pattern, count))
        }
    }
}

fn warnings_of(alloc: Global, rows: &[Warns]) -> Result<Seq<Warning>, AllocError> {
    let mut warnings = Seq::new(alloc);
    for row in rows {
        warnings.push(warning_of(alloc, *row)?)?;
    }
    Ok(warnings)
}

fn commands_of(alloc: Global, rows: &[Exception]) -> Result<Seq<CommandLine>, AllocError> {
    let mut commands = Seq::new(alloc);
    for row in rows {
        commands.push(CommandLine {
            line: row.0,
            listing: listing_of(alloc, row.1)?,
            warnings: warnings_of(alloc, row.2)?,
        })?;
    }
    Ok(commands)
}

fn pairs_of(alloc: Global, rows: &[Pair]) -> Result<Seq<PairLine>, AllocError> {
    let mut pairs = Seq::new(alloc);
    for row in rows {
        pairs.push(PairLine {
            command: row.0,
            start: Name::new(alloc, row.2)?,
            end: Name::new(alloc, row.3)?,
        })?;
    }
    Ok(pairs)
}

fn claims_of(alloc: Global, rows: &[Pair], hazard: bool) -> Result<Seq<Claim>, AllocError> {
    let mut claims = Seq::new(alloc);
    for row in rows {
        claims.push(Claim {
            kind: row.1.0,
            edge: row.1.1,
            lag: 0,
            hazard,
            early: false,
            start: Start::Reg(0),
            end: End::Reg(0),
            through: Seq::new(alloc),
        })?;
    }
    Ok(claims)
}

fn skipped_of(alloc: Global, rows: &[(&str, u64)]) -> Result<Seq<Skipped>, AllocError> {
    let mut all = Seq::new(alloc);
    for (name, count) in rows {
        let name = Name::new(alloc, name.as_bytes())?;
        all.push(Skipped {
            name,
            count: *count,
        })?;
    }
    Ok(all)
}

fn unjudged_of(alloc: Global, rows: &[(u64, &str)]) -> Result<Seq<Unjudged>, AllocError> {
    let mut all = Seq::new(alloc);
    for (line, name) in rows {
        let name = Name::new(alloc, name.as_bytes())?;
        all.push(Unjudged { line: *line, name })?;
    }
    Ok(all)
}

fn cuts_of(alloc: Global, rows: &[(&str, u64, bool)]) -> Result<Seq<CutCells>, AllocError> {
    let mut all = Seq::new(alloc);
    for (cell, count, open) in rows {
        let cell = Name::new(alloc, cell.as_bytes())?;
        all.push(CutCells {
            cell,
            count: *count,
            open: *open,
        })?;
    }
    Ok(all)
}

fn name_of(alloc: Global, name: Option<&str>) -> Result<Option<Name>, AllocError> {
    match name {
        Some(name) => Ok(Some(Name::new(alloc, name.as_bytes())?)),
        None => Ok(None),
    }
}

pub fn notices_of(alloc: Global, tells: &Tells) -> Result<Notices, AllocError> {
    let skipped = match tells.0 {
        Some(rows) => Some(skipped_of(alloc, rows)?),
        None => None,
    };
    Ok(Notices {
        top: name_of(alloc, tells.3.0)?,
        clock: name_of(alloc, tells.3.1)?,
        cuts: cuts_of(alloc, tells.3.2)?,
        skipped,
        unjudged: unjudged_of(alloc, tells.1)?,
        hold_commands: tells.2,
    })
}

pub fn selected_of(alloc: Global, case: &Case) -> Result<Selected, AllocError> {
    Ok(Selected {
        commands: commands_of(alloc, case.exceptions)?,
        pairs: pairs_of(alloc, case.pairs)?,
        claims: claims_of(alloc, case.pairs, case.options.hazard)?,
    })
}

fn stimulus_of(alloc: Global, bits: Bits) -> Result<Stimulus, AllocError> {
    let mut inputs = Seq::new(alloc);
    for row in bits.1 {
        inputs.push(Seq::of(alloc, row)?)?;
    }
    let state = Seq::of(alloc, bits.0)?;
    Ok(Stimulus { state, inputs })
}

// What is kept beside a verdict is not printed.
fn empty_log(alloc: Global) -> Derivation {
    Derivation {
        steps: Seq::new(alloc),
    }
}

fn verdict_of(alloc: Global, found: Found) -> Result<Verdict, AllocError> {
    Ok(match found {
        Found::Single => Verdict::Justified(Proof::Single),
        Found::Fixed => Verdict::Justified(Proof::Fixed),
        Found::Depth(depth) => Verdict::Justified(Proof::Depth {
            depth,
            base: Seq::new(alloc),
            step: empty_log(alloc),
        }),
        Found::Refuted(offset, bits) => Verdict::Refuted {
            offset,
            stimulus: stimulus_of(alloc, bits)?,
        },
        Found::Stays => Verdict::Undecided(Cause::Depth),
        Found::Spent(phase, depth) => Verdict::Undecided(Cause::Budget {
            phase,
            depth,
            log: empty_log(alloc),
        }),
        Found::Free(offset, bits) => Verdict::Undecided(Cause::Free {
            offset,
            stimulus: stimulus_of(alloc, bits)?,
        }),
        Found::Cut => Verdict::Undecided(Cause::Cut),
    })
}

pub fn verdicts_of(alloc: Global, rows: &[Pair]) -> Result<Vec<Verdict>, AllocError> {
    let mut verdicts = Vec::new(alloc);
    for row in rows {
        verdicts.push(verdict_of(alloc, row.4)?)?;
    }
    Ok(verdicts)
}

pub fn check_rows(rt: &impl Abort, selected: &Selected, verdicts: &[Verdict])
    ensures { HasRows selected.now verdicts.now }
{
    assert!(rt; selected.claims.len() == selected.pairs.len());
    assert!(rt; verdicts.len() == selected.pairs.len());
}

/// All lines in order.
pub fn joined(alloc: Global, lines: &[Vec<u8>]) -> Result<Vec<u8>, AllocError> {
    let mut text = Vec::new(alloc);
    for line in lines {
        text.extend_from_slice(line)?;
    }
    Ok(text)
}

/// Whether a stimulus has these bits.
pub fn is_stimulus(stimulus: &Stimulus, bits: Bits) -> bool {
    let inputs = stimulus.inputs.as_slice();
    stimulus.state.as_slice() == bits.0
        && inputs.len() == bits.1.len()
        && inputs
            .iter()
            .zip(bits.1)
            .all(|(row, want)| row.as_slice() == *want)
}
