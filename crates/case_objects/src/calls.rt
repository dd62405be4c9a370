//! What a script's case analyses set in a linked design.
ghost use Rattle.std.specs.Prelude.{IfOk, IfErr, OnOk};
ghost use Rattle.linked_types.specs.Usable.{IsUsable};
ghost use Rattle.case_objects.specs.CaseObjects.{AreCaseObjects, AreGiven, AreSensible};
ghost use Rattle.case_objects.specs.Causes.{IsCaseCause};

use crate::found::case_values;
use crate::given::{assumptions, more_fixed, names, told};
use crate::inputs::{check_inputs, check_resets};
use crate::loads::{all_places, check_loads};
use crate::values::{CaseObjects, CaseValue};
use linked_types::Linked;
use script_types::Script;
use sdc_objects::{Scope, Tables};
use sdcv_base::Seq;
use selected_types::ExpandFault;
use std::alloc::{AllocError, Global};

/// What the case analyses of a script assume in a linked design, and which of its inputs they fix besides those that it has fixed.
///
/// An object of ports names data inputs, each other one pins or nets. A net of a data input, or a pin that stands for that net in
/// through, fixes the input as its port does. Each other thing gives an assumption on what it stands for in through. An object that
/// names nothing, or something that is dropped there, a value of a reset, and two values of a data input or a load pin are refused.
pub fn case_objects(
    alloc: Global,
    linked: &Linked,
    script: &Script,
) -> Result<CaseObjects, ExpandFault>
    requires { IsUsable linked.now }
    ensures ok { IfOk result (AreCaseObjects linked.now script.now) }
    ensures err { IfErr result (IsCaseCause linked.now script.now) }
    ensures none { OnOk result (AreSensible linked.now script.now) }
{
    let tables = Tables::of(alloc, linked)?;
    let scope = Scope {
        linked,
        script,
        tables: &tables,
        strict: false,
    };
    let values = case_values(alloc, &scope)?;
    check_resets(alloc, linked, &values)?;
    check_inputs(&linked.design, &values)?;
    let places = all_places(alloc, &values)?;
    check_loads(&linked.design, &values, &places)?;
    Ok(given(alloc, linked, &values)?)
}

fn given(alloc: Global, linked: &Linked, values: &Seq<CaseValue>) -> Result<CaseObjects, AllocError>
    ensures { IfOk result (AreGiven linked.now values.now) }
{
    Ok(CaseObjects {
        assumed: assumptions(alloc, values)?,
        names: names(alloc, values)?,
        fixed: more_fixed(alloc, &linked.design.fixed, values)?,
        told: told(alloc, linked.names.ins.len(), values)?,
    })
}
