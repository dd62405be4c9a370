//! The values of settings, by input.
ghost use Rattle.std.specs.Prelude.{IfOk};
ghost use Rattle.net_model.specs.Netlist.{AllBelow, setting_inputs};
ghost use Rattle.cnf_encode.specs.Coned.{AreValuesOf};

use net_model::Fixed;
use sdcv_base::Seq;
use std::alloc::{AllocError, Global};

/// For each input the value of its setting, if it has one. Of several the first counts.
pub fn input_values(
    alloc: Global,
    settings: &Seq<Fixed>,
    inputs: usize,
) -> Result<Seq<Option<bool>>, AllocError>
    requires { AllBelow inputs (setting_inputs settings.now) }
    ensures { IfOk result (AreValuesOf settings.now inputs) }
{
    let none: Option<bool> = None;
    let mut values = Seq::filled(alloc, none, inputs)?;
    let count = settings.len();
    for i in 0..count {
        let setting = settings.at(count - 1 - i);
        values.put(setting.input, Some(setting.value));
    }
    Ok(values)
}
