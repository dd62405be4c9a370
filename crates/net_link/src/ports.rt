//! The ports of the top module with what is set at them.
ghost use Rattle.std.specs.Prelude.{◌≡◌, ◌≤◌, ◌++◌, ℕ, List, Some, true, All, length, IfOk, IfErr, OnOk};
ghost use Rattle.net_model.specs.Netlist.{AllBelow};
ghost use Rattle.texts.specs.Names.{are_distinct};
ghost use Rattle.netlist_types.specs.declared.sources.Port.{Port as PortRecord};
ghost use Rattle.link_defs.specs.Circuits.{input_bits, output_bits};
ghost use Rattle.link_defs.specs.Faults.{bit_names, set_names, IsBadSetting};
ghost use Rattle.link_tops.specs.Clashes.{port_names, IsApart};
ghost use Rattle.net_link.specs.Given.{IsHeldAt, IsUnfit};
ghost use Rattle.net_link.specs.Ports.{AreTopPorts, IsPortCause, IsNameFault, IsClockAmong};

use crate::given::held_of;
use crate::inputs::{clock_port, data_names, data_table};
use link_design::Held;
use link_tops::{add_ports, input_names, output_names};
use linked_types::{LinkFault, LinkOptions, PortName};
use netlist_types::Module;
use sdcv_base::{Name, Seq};
use std::alloc::Global;
use texts::NameTable;

/// The data inputs, the outputs and the clock of a module by name, and the inputs that are given a value, by their places among
/// the data inputs.
#[derive(Drop)]
pub struct TopPorts {
    pub ins: Seq<PortName>,
    pub outs: Seq<PortName>,
    pub clock: Option<PortName>,
    pub held: Held,
}

/// The ports of a module, with what the options set.
pub fn top_ports(alloc: Global, body: &Module, options: &LinkOptions) -> Result<TopPorts, LinkFault>
    requires bits { All (λ (p : PortRecord). AllBelow (length body.now.nets) p.bits) body.now.ports }
    requires reset_len { options.now.reset_len ≤ 64 }
    ensures ok { IfOk result (AreTopPorts body.now options.now) }
    ensures settings { OnOk result ((name : List ℕ) → IsBadSetting body.now options.now name → ⊥) }
    ensures names { OnOk result (IsApart (bit_names (input_bits body.now ++ output_bits body.now))) }
    ensures err { IfErr result (IsPortCause body.now options.now) }
{
    let inputs = input_names(alloc, body)?;
    let outs = output_names(alloc, body)?;
    check_names(alloc, &inputs, &outs, &options.clock)?;
    let ins = data_names(alloc, &inputs, &options.clock)?;
    let held = held_among(alloc, &ins, options)?;
    let clock = clock_port(alloc, &inputs, &options.clock)?;
    Ok(TopPorts {
        ins,
        outs,
        clock,
        held,
    })
}

/// Refuses two port bits of one name, and a clock that is no input bit.
fn check_names(
    alloc: Global,
    inputs: &Seq<PortName>,
    outs: &Seq<PortName>,
    clock: &Option<Name>,
) -> Result<(), LinkFault>
    ensures distinct { OnOk result (are_distinct (port_names inputs.now ++ port_names outs.now) ≡ true) }
    ensures clock { OnOk result (IsClockAmong (port_names inputs.now) clock.now) }
    ensures err { IfErr result (IsNameFault (port_names inputs.now) (port_names outs.now) clock.now) }
{
    let mut names = NameTable::new(alloc);
    add_ports(alloc, &mut names, inputs)?;
    check_clock(alloc, &names, clock)?;
    add_ports(alloc, &mut names, outs)?;
    Ok(())
}

/// Refuses a clock that is none of the input bits.
fn check_clock(alloc: Global, inputs: &NameTable, clock: &Option<Name>) -> Result<(), LinkFault>
    ensures ok { OnOk result (IsClockAmong inputs.now clock.now) }
    ensures err { IfErr result (λ e. (outs : List (List ℕ)) → IsNameFault inputs.now outs clock.now e) }
{
    match clock {
        Some(name) => check_among(alloc, inputs, name),
        None => Ok(()),
    }
}

/// Refuses a name that is none of these.
fn check_among(alloc: Global, inputs: &NameTable, name: &Name) -> Result<(), LinkFault>
    ensures ok { OnOk result (IsClockAmong inputs.now (Some name.now)) }
    ensures err { IfErr result (λ e. (outs : List (List ℕ)) → IsNameFault inputs.now outs (Some name.now) e) }
{
    if !inputs.contains(name) {
        return Err(LinkFault::BadSetting(name.copy(alloc)?));
    }
    Ok(())
}

/// What the options set among the data inputs.
fn held_among(alloc: Global, ins: &Seq<PortName>, options: &LinkOptions) -> Result<Held, LinkFault>
    requires { are_distinct (port_names ins.now) ≡ true }
    ensures ok { IfOk result (IsHeldAt (port_names ins.now) options.now) }
    ensures distinct { OnOk result (are_distinct (set_names options.now) ≡ true) }
    ensures err { IfErr result (IsUnfit (port_names ins.now) (set_names options.now)) }
{
    let table = data_table(alloc, ins)?;
    let held = held_of(alloc, &table, options)?;
    Ok(held)
}
