//! Values of data inputs.
ghost use Rattle.std.specs.Prelude.{◌≡◌, ◌<◌, ℕ, All, Contains, IsTrue, ◌↔◌, length, OnOk, IfErr};
ghost use Rattle.net_model.specs.Netlist.{setting_inputs};
ghost use Rattle.linked_types.specs.Inputs.{input_names};
ghost use Rattle.case_objects.specs.declared.values.CaseValue.{CaseValue as ValueRecord};
ghost use Rattle.case_objects.specs.declared.subjects.Subject.{Subject as SubjectEnum};
ghost use Rattle.case_objects.specs.declared.subjects.Subject.TheVariants.{Input as InputSubject};
ghost use Rattle.case_objects.specs.Subjects.{AgreeOn, IsSubject};
ghost use Rattle.case_objects.specs.CaseObjects.{resets_input};
ghost use Rattle.case_objects.specs.Causes.{IsTwiceOf, IsResetCause};
ghost use Rattle.case_objects.specs.Stages.{IsInputOf};

use crate::subjects::{Subject, check_subject};
use crate::values::CaseValue;
use linked_types::Linked;
use net_model::{Design, Fixed};
use sdcv_base::Seq;
use selected_types::ExpandFault;
use std::alloc::Global;

/// Refuses a value of a reset.
pub(crate) fn check_resets(
    alloc: Global,
    linked: &Linked,
    values: &Seq<CaseValue>,
) -> Result<(), ExpandFault>
    requires inputs { All (λ (v : ValueRecord). IsInputOf linked.now.design v.input) values.now }
    requires names { length (input_names linked.now.names) ≡ length linked.now.design.inputs }
    ensures ok { OnOk result (All (λ (v : ValueRecord). resets_input linked.now.design v.input → ⊥) values.now) }
    ensures err { IfErr result (IsResetCause linked.now values.now) }
{
    for k in 0..values.len() {
        let value = values.item(k);
        if let Some(input) = value.input {
            if is_reset(&linked.design.resets, input) {
                let name = linked.names.input(input).copy(alloc)?;
                return Err(ExpandFault::CaseOnReset(value.line, name));
            }
        }
    }
    Ok(())
}

fn is_reset(resets: &Seq<Fixed>, input: usize) -> bool
    ensures { IsTrue result ↔ Contains (setting_inputs resets.now) input }
{
    for k in 0..resets.len() {
        if resets.at(k).input == input {
            return true;
        }
    }
    false
}

/// Refuses two values of one data input.
pub(crate) fn check_inputs(design: &Design, values: &Seq<CaseValue>) -> Result<(), ExpandFault>
    requires { All (λ (v : ValueRecord). IsInputOf design.now v.input) values.now }
    ensures ok { OnOk result ((i : ℕ) → AgreeOn (InputSubject i) values.now) }
    ensures err { IfErr result (λ e. (s : SubjectEnum) × IsSubject design.now s × IsTwiceOf s values.now e) }
{
    for k in 0..values.len() {
        if let Some(input) = values.item(k).input {
            check_subject(values, Subject::Input(input))?;
        }
    }
    Ok(())
}
