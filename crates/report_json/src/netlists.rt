//! What is told of a netlist, as values.
ghost use Rattle.std.specs.Prelude.{◌≡◌, IfOk, OnOk};
ghost use Rattle.serde_json.specs.View.{view};
ghost use Rattle.report_json.specs.Objects.{made, with_cuts, with_name};
ghost use Rattle.report_json.specs.Reports.{cuts_data, one_cut};

use crate::objects::{Object, array_of};
use run_options::RunOptions;
use sdcv_base::{Name, Seq};
use selected_types::{CutCells, Notices};
use serde_json::Value;
use std::alloc::{AllocError, Global};

fn cut_value(alloc: Global, cut: &CutCells) -> Result<Value, AllocError>
    ensures { IfOk result (λ v. view v ≡ one_cut cut.now) }
{
    let mut object = Object::new(alloc);
    object.put_count(alloc, "cells", cut.count)?;
    object.put_name(alloc, "name", &cut.cell)?;
    object.put_truth(alloc, "open", cut.open)?;
    Ok(object.into_value())
}

fn all_cuts(alloc: Global, cuts: &Seq<CutCells>) -> Result<Value, AllocError>
    ensures { IfOk result (λ v. view v ≡ cuts_data cuts.now) }
{
    let mut list = Vec::new(alloc);
    for row in cuts.as_slice() {
        let value = cut_value(alloc, row)?;
        list.push(value)?;
    }
    Ok(array_of(list))
}

/// Puts which cells are cut out, in a run in which cells may be.
pub(crate) fn put_cuts(
    alloc: Global,
    object: &mut Object,
    options: &RunOptions,
    notices: &Notices,
) -> Result<(), AllocError>
    ensures { OnOk result (made object.new ≡ with_cuts options.now notices.now (made object.old)) }
{
    if options.free.is_some() {
        object.put_value(alloc, "cuts", all_cuts(alloc, &notices.cuts)?)
    } else {
        Ok(())
    }
}

/// Puts the name of the top module or the clock, where it is asked for by it.
pub(crate) fn put_asked_name(
    alloc: Global,
    object: &mut Object,
    key: &str,
    name: &Option<Name>,
) -> Result<(), AllocError>
    ensures { OnOk result (made object.new ≡ with_name key.now name.now (made object.old)) }
{
    match name {
        Some(name) => object.put_name(alloc, key, name),
        None => Ok(()),
    }
}
