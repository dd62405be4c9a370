//! The keys that are reached by what definitions read.
ghost use Rattle.std.specs.Prelude.{◌≤◌, OnOk};
ghost use Rattle.net_model.specs.Netlist.{IsSound};
ghost use Rattle.frame_unroll.specs.Reading.{IsSubject};
ghost use Rattle.frame_unroll.specs.Found.{AreKeysWithin, AreReached};
ghost use Rattle.frame_unroll.specs.Origins.{claim_reads, clause_reads};

use crate::found_keys::{add_base_reads, add_claim_reads};
use crate::key_sets::KeySet;
use crate::origins::clause_origin;
use crate::subjects::Subject;
use crate::tables::Tables;
use query_model::Key;
use std::alloc::{AllocError, Global};

/// Adds the keys that the definitions of the found keys read, those that their definitions read, and so on, where it is
/// asked about a claim. Each key is looked at once, in the order in which they are found.
pub fn reach_of_claim(
    alloc: Global,
    subject: &Subject,
    cycles: usize,
    found: &mut KeySet,
) -> Result<(), AllocError>
    requires subject { IsSubject subject.now }
    requires cycles { cycles ≤ 144 }
    requires within { AreKeysWithin subject.now.design.now cycles found.old }
    ensures { OnOk result (AreReached (claim_reads subject.now.tables.now.coding subject.now.design.now subject.now.claim.now subject.now.moved
        cycles) found.old found.new) }
{
    let mut next = 0;
    while next < found.len() {
        let key = found.key(next);
        add_claim_reads(alloc, subject, cycles, key, found)?;
        next += 1;
    }
    Ok(())
}

/// The same where it is asked about a clause over register bits.
pub fn reach_of_clause(
    alloc: Global,
    tables: &Tables,
    cycles: usize,
    found: &mut KeySet,
) -> Result<(), AllocError>
    requires sound { IsSound tables.now.design }
    ensures { OnOk result (AreReached (clause_reads tables.now.coding tables.now.design cycles) found.old found.new) }
{
    let mut next = 0;
    while next < found.len() {
        let key = found.key(next);
        let origin = clause_origin(tables.design(), tables.gates(), cycles, key);
        add_base_reads(alloc, tables, key, origin, found)?;
        next += 1;
    }
    Ok(())
}
