//! What the objects of a case analysis name.
ghost use Rattle.std.specs.Prelude.{◌≡◌, ◌++◌, ◌∷◌, [], if◌then◌else◌, map, IfOk, OnOk};
ghost use Rattle.std.specs.List.{list_any};
ghost use Rattle.sdcv_base.specs.Seqs.{each_at, where_true};
ghost use Rattle.script_types.specs.declared.objects.Class.TheVariants as classes;
ghost use Rattle.linked_types.specs.declared.names.PortName.{PortName as PortRecord};
ghost use Rattle.sdc_settings.specs.Inputs as inputs;
ghost use Rattle.sdc_objects.specs.Things as things;
ghost use Rattle.sdc_objects.specs.declared.things.Thing.TheVariants as thing;
ghost use Rattle.sdcv_base.specs.Seqs.{option_list};
ghost use Rattle.case_objects.specs.Spots as spec;

use glob::matches;
use linked_types::{CellName, Names, NetName, PortName};
use script_types::{Class, Object, Query};
use sdc_objects::Thing;
use sdc_settings::names_bit;
use sdcv_base::{Name, Seq};
use std::alloc::{AllocError, Global};

/// A data input, a pin or a net, by its full name.
#[derive(Drop)]
pub struct Spot {
    pub name: Name,
    pub thing: Thing,
}

/// All that an object of a case analysis names.
pub(crate) fn spots(alloc: Global, names: &Names, object: &Object) -> Result<Seq<Spot>, AllocError>
    ensures { IfOk result (λ found. found ≡ spec.spots names.now object.now) }
{
    match object {
        Object::Named(query) => {
            let ports = is_of_ports(query.class, matches_input(names, query));
            first_found(alloc, names, query, classes_of(ports, query.class))
        }
        Object::AllInputs => all_inputs(alloc, &names.ins),
        Object::AllOutputs | Object::AllRegisters | Object::AllClocks => Ok(Seq::new(alloc)),
    }
}

fn is_of_ports(class: Class, matching: bool) -> bool
    ensures { result ≡ spec.is_of_ports class matching }
{
    match class {
        Class::Ports => true,
        Class::Any => matching,
        Class::Cells | Class::Pins | Class::Nets | Class::Clocks => false,
    }
}

// Whether a pattern matches an input port bit, the clock's among them.
fn matches_input(names: &Names, query: &Query) -> bool
    ensures { result ≡ spec.matches_input names.now query.now }
{
    matches_clock(query, &names.clock) || matches_bit(query, &names.ins)
}

fn matches_clock(query: &Query, clock: &Option<PortName>) -> bool
    ensures { result ≡ list_any (inputs.names_bit query.now) (option_list clock.now) }
{
    match clock {
        Some(port) => names_bit(query, port),
        None => false,
    }
}

fn matches_bit(query: &Query, ports: &Seq<PortName>) -> bool
    ensures { result ≡ list_any (inputs.names_bit query.now) ports.now }
{
    ports.as_slice().iter().any(|port| names_bit(query, port))
}

// The classes in which a pattern is looked for.
fn classes_of(ports: bool, class: Class) -> &'static [Class]
    ensures { result.now ≡ (if ports then classes.Ports ∷ [] else spec.inner_classes class) }
{
    if ports {
        return &[Class::Ports];
    }
    match class {
        Class::Any => &[Class::Pins, Class::Nets],
        Class::Pins => &[Class::Pins],
        Class::Nets => &[Class::Nets],
        Class::Ports | Class::Cells | Class::Clocks => &[],
    }
}

// What a pattern names in the first of the classes that has it.
fn first_found(
    alloc: Global,
    names: &Names,
    query: &Query,
    classes: &[Class],
) -> Result<Seq<Spot>, AllocError>
    ensures { IfOk result (λ found. found ≡ things.first_some (map (spec.spots_in names.now query.now) classes.now)) }
{
    for class in classes {
        let found = spots_in(alloc, names, query, *class)?;
        if !found.is_empty() {
            return Ok(found);
        }
    }
    Ok(Seq::new(alloc))
}

fn spots_in(
    alloc: Global,
    names: &Names,
    query: &Query,
    class: Class,
) -> Result<Seq<Spot>, AllocError>
    ensures { IfOk result (λ found. found ≡ spec.spots_in names.now query.now class) }
{
    match class {
        Class::Ports => bit_spots(alloc, query, &names.ins),
        Class::Pins => all_pin_spots(alloc, query, &names.cells),
        Class::Nets => net_spots(alloc, query, &names.nets),
        Class::Cells | Class::Clocks | Class::Any => Ok(Seq::new(alloc)),
    }
}

// Adds a thing where it is one of those that are looked for.
fn add_where(
    alloc: Global,
    wanted: bool,
    name: &Name,
    thing: Thing,
    found: &mut Seq<Spot>,
) -> Result<(), AllocError>
    ensures { OnOk result (found.new ≡ found.old ++ where_true wanted (spec.spot name.now thing)) }
{
    if wanted {
        let name = name.copy(alloc)?;
        found.push(Spot { name, thing })?;
    }
    Ok(())
}

fn all_inputs(alloc: Global, ins: &Seq<PortName>) -> Result<Seq<Spot>, AllocError>
    ensures { IfOk result (λ found. found ≡ each_at (λ i (p : PortRecord). spec.spot p.name (thing.In i) ∷ []) 0 ins.now) }
{
    let mut found = Seq::new(alloc);
    for i in 0..ins.len() {
        add_where(alloc, true, &ins.item(i).name, Thing::In(i), &mut found)?;
    }
    Ok(found)
}

fn bit_spots(alloc: Global, query: &Query, ins: &Seq<PortName>) -> Result<Seq<Spot>, AllocError>
    ensures { IfOk result (λ found. found ≡ each_at (spec.bit_spot query.now) 0 ins.now) }
{
    let mut found = Seq::new(alloc);
    for i in 0..ins.len() {
        let port = ins.item(i);
        let named = names_bit(query, port);
        add_where(alloc, named, &port.name, Thing::In(i), &mut found)?;
    }
    Ok(found)
}

fn net_spots(alloc: Global, query: &Query, nets: &Seq<NetName>) -> Result<Seq<Spot>, AllocError>
    ensures { IfOk result (λ found. found ≡ each_at (spec.net_spot query.now) 0 nets.now) }
{
    let mut found = Seq::new(alloc);
    for place in 0..nets.len() {
        let net = nets.item(place);
        let named = is_named(query, &net.name);
        add_where(alloc, named, &net.name, Thing::Net(net.net), &mut found)?;
    }
    Ok(found)
}

fn all_pin_spots(
    alloc: Global,
    query: &Query,
    cells: &Seq<CellName>,
) -> Result<Seq<Spot>, AllocError>
    ensures { IfOk result (λ found. found ≡ each_at (spec.pin_spots query.now) 0 cells.now) }
{
    let mut found = Seq::new(alloc);
    for k in 0..cells.len() {
        add_pin_spots(alloc, query, k, cells.item(k), &mut found)?;
    }
    Ok(found)
}

fn add_pin_spots(
    alloc: Global,
    query: &Query,
    k: usize,
    cell: &CellName,
    found: &mut Seq<Spot>,
) -> Result<(), AllocError>
    ensures { OnOk result (found.new ≡ found.old ++ spec.pin_spots query.now k cell.now) }
{
    for place in 0..cell.pins.len() {
        let name = pin_name(alloc, &cell.name, &cell.pins.item(place).name)?;
        let named = is_named(query, &name);
        add_where(alloc, named, &name, Thing::Pin(k, place), found)?;
    }
    Ok(())
}

// The full name of a pin.
fn pin_name(alloc: Global, cell: &Name, pin: &Name) -> Result<Name, AllocError>
    ensures { IfOk result (λ name. name ≡ things.pin_name cell.now pin.now) }
{
    let mut name = Vec::from_slice(alloc, cell.as_bytes())?;
    name.push(b'/')?;
    name.extend_from_slice(pin.as_bytes())?;
    Ok(Name::from_vec(name))
}

fn is_named(query: &Query, name: &Name) -> bool
    ensures { result ≡ things.names query.now name.now }
{
    matches(query.pattern.as_bytes(), name.as_bytes(), query.hier)
}
