//! Bits of a run that are watched.
ghost use Rattle.std.specs.Prelude.{◌≡◌, IfOk, All};
ghost use Rattle.net_model.specs.Netlist.{IsSound};
ghost use Rattle.net_model.specs.Cycles.{IsSettled};
ghost use Rattle.shown_runs.specs.Watches as spec;
ghost use Rattle.shown_runs.specs.Watches.{IsWatchedIn};

use net_model::{Cycle, Design, End, Start};
use net_sim::capture;
use sdcv_base::Seq;
use std::alloc::{AllocError, Global};

/// A bit of each cycle: that of a start, the state of a register, or what an end captures.
#[derive(Clone, Copy)]
pub enum Watched {
    Start(Start),
    State(usize),
    Capture(End),
}

fn watched_bit(design: &Design, cycle: &Cycle, what: Watched) -> bool
    requires sound { IsSound design.now }
    requires settled { IsSettled design.now cycle.now }
    requires in_range { IsWatchedIn design.now what }
    ensures { result ≡ spec.watched_bit design.now what cycle.now }
{
    match what {
        Watched::Start(start) => cycle.start_bit(design, &start),
        Watched::State(reg) => cycle.bits.as_slice().get(reg).copied().unwrap_or(false),
        Watched::Capture(end) => capture(design, cycle, &end),
    }
}

/// Its values, cycle by cycle.
pub(crate) fn watched_bits(
    alloc: Global,
    design: &Design,
    run: &[Cycle],
    what: Watched,
) -> Result<Seq<bool>, AllocError>
    requires sound { IsSound design.now }
    requires settled { All (IsSettled design.now) run.now }
    requires in_range { IsWatchedIn design.now what }
    ensures { IfOk result (λ bits. bits ≡ spec.watched_bits design.now what run.now) }
{
    let mut bits = Seq::new(alloc);
    for cycle in run {
        bits.push(watched_bit(design, cycle, what))?;
    }
    Ok(bits)
}
