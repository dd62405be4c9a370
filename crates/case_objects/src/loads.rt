//! Values that meet at the load pins of a design.
ghost use Rattle.std.specs.Prelude.{◌≡◌, ◌++◌, ℕ, flat_map, slice_get, Some, IfOk, OnOk, IfErr};
ghost use Rattle.net_model.specs.Paths.{LeadsTo};
ghost use Rattle.net_model.specs.declared.netlist.Gate.{Gate as GateRecord};
ghost use Rattle.net_model.specs.declared.netlist.Reg.{Reg as RegRecord};
ghost use Rattle.net_model.specs.declared.claims.PinRef.{PinRef as PinEnum};
ghost use Rattle.net_model.specs.declared.claims.PinRef.TheVariants.{Net as NetPin};
ghost use Rattle.case_objects.specs.declared.values.CaseValue.{CaseValue as ValueRecord};
ghost use Rattle.case_objects.specs.declared.subjects.Subject.{Subject as SubjectEnum};
ghost use Rattle.case_objects.specs.declared.subjects.Subject.TheVariants.{Load as LoadSubject};
ghost use Rattle.case_objects.specs.declared.loads.Owner.TheVariants as owners;
ghost use Rattle.case_objects.specs.Subjects.{AgreeOn, IsSubject};
ghost use Rattle.case_objects.specs.Causes.{IsTwiceOf};
ghost use Rattle.case_objects.specs.Stages as spec;
ghost use Rattle.case_objects.specs.Stages.{AgreeOnPins, IsPinTwice};

use crate::subjects::{Subject, check_subject};
use crate::values::CaseValue;
use net_model::{Design, Gate, PinRef, PinSet, Reg};
use sdcv_base::Seq;
use selected_types::ExpandFault;
use std::alloc::{AllocError, Global};

/// Whose load pins are meant: those of a gate or a register, by its number, or the output ports.
#[derive(Clone, Copy, PartialEq, Eq)]
pub enum Owner {
    Gate(usize),
    Reg(usize),
    Ports,
}

fn load_pin(owner: Owner, place: usize) -> PinRef
    ensures { result ≡ spec.load_pin owner place }
{
    match owner {
        Owner::Gate(gate) => PinRef::GateIn(gate, place),
        Owner::Reg(reg) => PinRef::RegIn(reg, place),
        Owner::Ports => PinRef::OutPort(place),
    }
}

/// The places of all values, as one set.
pub(crate) fn all_places(alloc: Global, values: &Seq<CaseValue>) -> Result<PinSet, AllocError>
    ensures { IfOk result (λ set. set ≡ flat_map (λ (v : ValueRecord). v.place) values.now) }
{
    let mut list = Seq::new(alloc);
    for k in 0..values.len() {
        push_pins(&mut list, &values.item(k).place)?;
    }
    PinSet::of(alloc, list.as_slice())
}

fn push_pins(list: &mut Seq<PinRef>, pins: &Seq<PinRef>) -> Result<(), AllocError>
    ensures { OnOk result (list.new ≡ list.old ++ pins.now) }
{
    for j in 0..pins.len() {
        list.push(pins.at(j))?;
    }
    Ok(())
}

/// Refuses two values of one load pin.
pub(crate) fn check_loads(
    design: &Design,
    values: &Seq<CaseValue>,
    places: &PinSet,
) -> Result<(), ExpandFault>
    requires { places.now ≡ flat_map (λ (v : ValueRecord). v.place) values.now }
    ensures ok { OnOk result ((pin : PinEnum) (net : ℕ) → LeadsTo design.now (NetPin net) pin → AgreeOn (LoadSubject pin net) values.now) }
    ensures err { IfErr result (λ e. (s : SubjectEnum) × IsSubject design.now s × IsTwiceOf s values.now e) }
{
    check_gates(&design.gates, values, places)?;
    check_regs(&design.regs, values, places)?;
    check_pins(values, places, Owner::Ports, &design.outputs)
}

fn check_gates(
    gates: &Seq<Gate>,
    values: &Seq<CaseValue>,
    places: &PinSet,
) -> Result<(), ExpandFault>
    requires { places.now ≡ flat_map (λ (v : ValueRecord). v.place) values.now }
    ensures ok { OnOk result ((k : ℕ) (g : GateRecord) → slice_get gates.now k ≡ Some g → AgreeOnPins values.now (owners.Gate k) g.ins) }
    ensures err { IfErr result (λ e. (k : ℕ) × (g : GateRecord) × (slice_get gates.now k ≡ Some g) × IsPinTwice values.now (owners.Gate k) g.ins e) }
{
    for k in 0..gates.len() {
        check_pins(values, places, Owner::Gate(k), &gates.item(k).ins)?;
    }
    Ok(())
}

fn check_regs(regs: &Seq<Reg>, values: &Seq<CaseValue>, places: &PinSet) -> Result<(), ExpandFault>
    requires { places.now ≡ flat_map (λ (v : ValueRecord). v.place) values.now }
    ensures ok { OnOk result ((k : ℕ) (g : RegRecord) → slice_get regs.now k ≡ Some g → AgreeOnPins values.now (owners.Reg k) g.ins) }
    ensures err { IfErr result (λ e. (k : ℕ) × (g : RegRecord) × (slice_get regs.now k ≡ Some g) × IsPinTwice values.now (owners.Reg k) g.ins e) }
{
    for k in 0..regs.len() {
        check_pins(values, places, Owner::Reg(k), &regs.item(k).ins)?;
    }
    Ok(())
}

// The load pins of an owner, which reads these nets.
fn check_pins(
    values: &Seq<CaseValue>,
    places: &PinSet,
    owner: Owner,
    nets: &Seq<usize>,
) -> Result<(), ExpandFault>
    requires { places.now ≡ flat_map (λ (v : ValueRecord). v.place) values.now }
    ensures ok { OnOk result (AgreeOnPins values.now owner nets.now) }
    ensures err { IfErr result (IsPinTwice values.now owner nets.now) }
{
    for i in 0..nets.len() {
        check_load(values, places, load_pin(owner, i), nets.at(i))?;
    }
    Ok(())
}

fn check_load(
    values: &Seq<CaseValue>,
    places: &PinSet,
    pin: PinRef,
    net: usize,
) -> Result<(), ExpandFault>
    requires { places.now ≡ flat_map (λ (v : ValueRecord). v.place) values.now }
    ensures ok { OnOk result (AgreeOn (LoadSubject pin net) values.now) }
    ensures err { IfErr result (IsTwiceOf (LoadSubject pin net) values.now) }
{
    // Most pins are in no place, and one look at all of them tells it.
    if !places.has(pin) && !places.has(PinRef::Net(net)) {
        return Ok(());
    }
    check_subject(values, Subject::Load(pin, net))
}
