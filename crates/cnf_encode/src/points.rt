//! The definitions of a cycle's further points: toggles of the start, changes of the capture, late captures that differ,
//! and stale bits.
ghost use Rattle.std.specs.Prelude.{◌<◌, ◌^◌, OnOk};
ghost use Rattle.query_model.specs.Defined.{extra_definitions, stale_definitions};
ghost use Rattle.frame_unroll.specs.Reading.{IsSubject};
ghost use Rattle.cnf_encode.specs.Listed.{IsClosed, Lists};

use crate::needed::list_pair;
use frame_unroll::{Frames, Subject, change_pair, differ_pair, stale_pair, toggle_pair};
use proof_log::ClauseTable;
use std::alloc::{AllocError, Global};

fn list_stales(
    alloc: Global,
    frames: &Frames,
    subject: &Subject,
    cycle: usize,
    clauses: &mut ClauseTable,
) -> Result<(), AllocError>
    requires subject { IsSubject subject.now }
    requires closed { IsClosed frames.now (stale_definitions subject.now.design.now subject.now.claim.now cycle) }
    ensures { OnOk result (Lists frames.now (stale_definitions subject.now.design.now subject.now.claim.now cycle) clauses.old clauses.new) }
{
    for r in 0..subject.claim.judged_count().saturating_sub(1) {
        let stale = stale_pair(subject, cycle, r + 1);
        list_pair(alloc, frames, stale, clauses)?;
    }
    Ok(())
}

/// The definitions of the further points of a cycle.
pub fn list_points(
    alloc: Global,
    frames: &Frames,
    subject: &Subject,
    cycle: usize,
    clauses: &mut ClauseTable,
) -> Result<(), AllocError>
    requires subject { IsSubject subject.now }
    requires cycle { cycle < 2 ^ 32 }
    requires closed { IsClosed frames.now (extra_definitions subject.now.design.now subject.now.claim.now subject.now.moved cycle) }
    ensures { OnOk result (Lists frames.now (extra_definitions subject.now.design.now subject.now.claim.now subject.now.moved cycle) clauses.old clauses.new) }
{
    let toggle = toggle_pair(subject, cycle);
    let change = change_pair(subject, cycle);
    let differ = differ_pair(subject, cycle);
    list_pair(alloc, frames, toggle, clauses)?;
    list_pair(alloc, frames, change, clauses)?;
    list_pair(alloc, frames, differ, clauses)?;
    list_stales(alloc, frames, subject, cycle, clauses)?;
    Ok(())
}
