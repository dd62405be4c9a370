//! The definition of what a claim's end captures where the start is late.
ghost use Rattle.std.specs.Prelude.{◌<◌, length, slice_get, OnOk};
ghost use Rattle.query_model.specs.Defined.{late_reg, end_definition};
ghost use Rattle.cnf_encode.specs.Listed.{IsClosed, Lists};
ghost use Rattle.cnf_encode.specs.Late.{IsLateStart, of_late};

use crate::late_starts::LateStart;
use crate::sites::list_site;
use frame_unroll::{Frames, late_reg_site};
use net_model::End;
use proof_log::ClauseTable;
use std::alloc::{AllocError, Global};

/// The definition of the late capture of a register that is the end.
fn list_late_reg(
    alloc: Global,
    frames: &Frames,
    late: &LateStart,
    cycle: usize,
    r: usize,
    clauses: &mut ClauseTable,
) -> Result<(), AllocError>
    requires late { IsLateStart late.now }
    requires place { r < length late.now.subject.design.now.regs }
    requires closed { IsClosed frames.now (of_late late_reg late.now cycle r (slice_get late.now.subject.design.now.regs r)) }
    ensures { OnOk result (Lists frames.now (of_late late_reg late.now cycle r (slice_get late.now.subject.design.now.regs r)) clauses.old clauses.new) }
{
    let site = late_reg_site(alloc, &late.subject, cycle, r)?;
    list_site(alloc, frames, &site, late.cells.reg(r), clauses)?;
    Ok(())
}

/// The definition of what the claim's end captures late, if it has keys of its own: a register has, and an output shows
/// its net.
pub fn list_end(
    alloc: Global,
    frames: &Frames,
    late: &LateStart,
    cycle: usize,
    clauses: &mut ClauseTable,
) -> Result<(), AllocError>
    requires late { IsLateStart late.now }
    requires closed { IsClosed frames.now (of_late end_definition late.now cycle late.now.subject.claim.now.end) }
    ensures { OnOk result (Lists frames.now (of_late end_definition late.now cycle late.now.subject.claim.now.end) clauses.old clauses.new) }
{
    match late.subject.claim.end {
        End::Reg(r) => list_late_reg(alloc, frames, late, cycle, r, clauses),
        End::Output(_) => Ok(()),
    }
}
