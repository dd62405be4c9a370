//! Inputs for assumptions.
ghost use Rattle.std.specs.Prelude.{◌≡◌, ◌+◌, ◌≤◌, ◌++◌, ℕ, IfOk, OnOk, length};
ghost use Rattle.case_inputs.specs.Assumed.{new_nets, new_fixed};

use crate::assumptions::Assumed;
use net_model::Fixed;
use sdcv_base::Seq;
use std::alloc::{AllocError, Global};

/// The inputs' nets, and after them one from `nets` on for each assumption.
pub(crate) fn with_new_nets(
    alloc: Global,
    inputs: &Seq<usize>,
    nets: usize,
    assumed: &Seq<Assumed>,
) -> Result<Seq<usize>, AllocError>
    requires { nets + length assumed.now ≤ 200000 }
    ensures { IfOk result (λ list. list ≡ inputs.now ++ new_nets nets assumed.now) }
{
    let mut list = inputs.copy(alloc)?;
    for j in 0..assumed.len() {
        list.push(nets + j)?;
    }
    Ok(list)
}

/// The fixed inputs, and after them more.
pub(crate) fn with_fixed(
    alloc: Global,
    fixed: &Seq<Fixed>,
    more: &Seq<Fixed>,
) -> Result<Seq<Fixed>, AllocError>
    ensures { IfOk result (λ list. list ≡ fixed.now ++ more.now) }
{
    let mut list = fixed.copy(alloc)?;
    for k in 0..more.len() {
        list.push(more.at(k))?;
    }
    Ok(list)
}

/// Adds the inputs from `first` on, one for each assumption, with the assumed values.
pub(crate) fn push_assumed(
    list: &mut Seq<Fixed>,
    first: usize,
    assumed: &Seq<Assumed>,
) -> Result<(), AllocError>
    requires { first + length assumed.now ≤ 20000 }
    ensures { OnOk result (list.new ≡ list.old ++ new_fixed first assumed.now) }
{
    for j in 0..assumed.len() {
        list.push(Fixed {
            input: first + j,
            value: assumed.item(j).value,
        })?;
    }
    Ok(())
}
