//! The inputs that are given a value, by their places.
ghost use Rattle.std.specs.Prelude.{◌≡◌, ◌++◌, ◌∷◌, [], true, false, Some, IfOk, IfErr, OnOk, slice_get};
ghost use Rattle.std.specs.List.{AllZip};
ghost use Rattle.texts.specs.Names.{is_among, are_distinct};
ghost use Rattle.link_defs.specs.Faults.{set_names};
ghost use Rattle.net_link.specs.Given.{setting_names, IsGiven, IsHeldAt, IsUnfit};

use link_design::Held;
use linked_types::{LinkFault, LinkOptions};
use net_model::Fixed;
use sdcv_base::{Name, Seq, Setting};
use std::alloc::Global;
use texts::NameTable;

/// The place of the data input of a name, which is given a value for the first time.
fn give(
    alloc: Global,
    ins: &NameTable,
    given: &mut NameTable,
    name: &Name,
) -> Result<usize, LinkFault>
    ensures place { IfOk result (λ place. slice_get ins.now place ≡ Some name.now) }
    ensures fresh { OnOk result (is_among name.now given.old ≡ false) }
    ensures given { OnOk result (given.new ≡ given.old ++ name.now ∷ []) }
    ensures err { IfErr result (IsUnfit ins.now (given.old ++ name.now ∷ [])) }
{
    let place = ins.place(name);
    if place >= ins.len() {
        return Err(LinkFault::BadSetting(name.copy(alloc)?));
    }
    if !given.add(alloc, name)? {
        return Err(LinkFault::BadSetting(name.copy(alloc)?));
    }
    Ok(place)
}

/// The places and values of settings, whose names join those that are given a value.
fn places(
    alloc: Global,
    ins: &NameTable,
    given: &mut NameTable,
    settings: &Seq<Setting>,
) -> Result<Seq<Fixed>, LinkFault>
    ensures ok { IfOk result (AllZip (IsGiven ins.now) settings.now) }
    ensures given { OnOk result (given.new ≡ given.old ++ setting_names settings.now) }
    ensures distinct { OnOk result (are_distinct given.old ≡ true → are_distinct given.new ≡ true) }
    ensures err { IfErr result (IsUnfit ins.now (given.old ++ setting_names settings.now)) }
{
    let mut list = Seq::new(alloc);
    for k in 0..settings.len() {
        let setting = settings.item(k);
        let input = give(alloc, ins, given, &setting.name)?;
        list.push(Fixed {
            input,
            value: setting.value,
        })?;
    }
    Ok(list)
}

/// What the options set, by the places of the data inputs of these names.
pub(crate) fn held_of(
    alloc: Global,
    ins: &NameTable,
    options: &LinkOptions,
) -> Result<Held, LinkFault>
    ensures ok { IfOk result (IsHeldAt ins.now options.now) }
    ensures distinct { OnOk result (are_distinct (set_names options.now) ≡ true) }
    ensures err { IfErr result (IsUnfit ins.now (set_names options.now)) }
{
    let mut given = NameTable::new(alloc);
    let fixed = places(alloc, ins, &mut given, &options.fixed)?;
    let resets = places(alloc, ins, &mut given, &options.resets)?;
    Ok(Held {
        fixed,
        resets,
        reset_len: options.reset_len,
    })
}
