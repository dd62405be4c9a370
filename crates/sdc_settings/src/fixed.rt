//! Each fixed input once.
ghost use Rattle.std.specs.Prelude.{◌≡◌, ◌+◌, ◌<◌, All, Contains, IsTrue, ◌↔◌, IfOk, IfErr, OnOk, length};
ghost use Rattle.sdc_settings.specs.Settings.{AreFixed, setting_names};
ghost use Rattle.sdc_settings.specs.Causes.{IsFixedCause};
ghost use Rattle.sdc_settings.specs.Stages.{AreFixedSoFar, IsPushed};
ghost use Rattle.sdc_settings.specs.declared.cases.Given.{Given as GivenRecord};

use crate::cases::Given;
use linked_types::PortName;
use sdcv_base::{Name, Seq, Setting};
use selected_types::ExpandFault;
use std::alloc::Global;
use texts::NameTable;

/// The inputs that are fixed so far, with their names in a table, and for each the place at which it is first given.
#[derive(Drop)]
pub struct Fixed {
    pub names: NameTable,
    pub settings: Seq<Setting>,
    pub firsts: Seq<usize>,
}

/// The inputs that these values fix, each once.
pub(crate) fn fixed_inputs(
    alloc: Global,
    inputs: &Seq<PortName>,
    resets: &Seq<Setting>,
    givens: &Seq<Given>,
) -> Result<Seq<Setting>, ExpandFault>
    requires { All (λ (g : GivenRecord). g.input < length inputs.now) givens.now }
    ensures ok { IfOk result (AreFixed inputs.now resets.now givens.now) }
    ensures err { IfErr result (IsFixedCause inputs.now resets.now givens.now) }
{
    let mut fixed = Fixed {
        names: NameTable::new(alloc),
        settings: Seq::new(alloc),
        firsts: Seq::new(alloc),
    };
    for place in 0..givens.len() {
        fixed.add(alloc, inputs, resets, givens, place)?;
    }
    Ok(fixed.settings)
}

impl Fixed {
    // Adds what is given at a place.
    fn add(
        &mut self,
        alloc: Global,
        inputs: &Seq<PortName>,
        resets: &Seq<Setting>,
        givens: &Seq<Given>,
        place: usize,
    ) -> Result<(), ExpandFault>
        requires within { All (λ (g : GivenRecord). g.input < length inputs.now) givens.now }
        requires place { place < length givens.now }
        requires fixed { AreFixedSoFar inputs.now resets.now givens.now place self.old }
        ensures ok { OnOk result (AreFixedSoFar inputs.now resets.now givens.now (place + 1) self.new) }
        ensures err { IfErr result (IsFixedCause inputs.now resets.now givens.now) }
    {
        let given = givens.at(place);
        let name = &inputs.item(given.input).name;
        if is_reset(resets, name) {
            return Err(ExpandFault::CaseOnReset(given.line, name.copy(alloc)?));
        }
        if self.names.contains(name) {
            let found = self.names.place(name);
            if self.settings.item(found).value == given.value {
                return Ok(());
            }
            let first = givens.at(self.firsts.at(found));
            return Err(ExpandFault::CaseTwice(first.line, given.line));
        }
        self.push(alloc, name, given.value, place)?;
        Ok(())
    }

    // Adds an input that was not given before.
    fn push(
        &mut self,
        alloc: Global,
        name: &Name,
        value: bool,
        place: usize,
    ) -> Result<(), ExpandFault>
        requires { self.old.names ≡ setting_names self.old.settings }
        ensures ok { OnOk result (IsPushed name.now value place self.old self.new) }
        ensures err { IfErr result (λ e. e ≡ ExpandFault.Memory) }
    {
        self.names.add(alloc, name)?;
        self.settings.push(Setting {
            name: name.copy(alloc)?,
            value,
        })?;
        self.firsts.push(place)?;
        Ok(())
    }
}

fn is_reset(resets: &Seq<Setting>, name: &Name) -> bool
    ensures { IsTrue result ↔ Contains (setting_names resets.now) name.now }
{
    for k in 0..resets.len() {
        if resets.item(k).name == *name {
            return true;
        }
    }
    false
}
