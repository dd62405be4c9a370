//! What the objects of a script name.
ghost use Rattle.std.specs.Prelude.{◌≡◌, ◌++◌, ◌∷◌, [], ℕ, IfOk, OnOk, map};
ghost use Rattle.script_types.specs.declared.objects.Class.TheVariants as class;
ghost use Rattle.linked_types.specs.declared.names.CellName.{CellName as CellRecord};
ghost use Rattle.linked_types.specs.declared.names.PortName.{PortName as PortRecord};
ghost use Rattle.sdcv_base.specs.Seqs.{each_at};
ghost use Rattle.sdc_objects.specs.Tables.{IsTablesOf};
ghost use Rattle.sdc_objects.specs.Things as spec;

use crate::clocks::{clock_kind, name_of};
use crate::pins::add_pins;
use crate::scopes::Scope;
use crate::things::{Place, Side, Thing, add_where};
use glob::{Look, is_exact, matches};
use linked_types::{CellName, Names, NetName, PortName};
use script_types::{Class, Command, Object, Query, What};
use sdc_settings::names_bit;
use sdcv_base::{Name, Seq};
use std::alloc::{AllocError, Global};

/// All that an object names in a place of an exception.
pub(crate) fn things_of(
    alloc: Global,
    scope: &Scope,
    place: Place,
    object: &Object,
) -> Result<Seq<Thing>, AllocError>
    requires { IsTablesOf scope.now.linked.now scope.now.tables.now }
    ensures { IfOk result (λ things. things ≡ spec.things_of scope.now.linked.now scope.now.script.now place object.now) }
{
    let names = &scope.linked.names;
    match object {
        Object::Named(query) => named(alloc, scope, place, query),
        Object::AllInputs => all_bits(alloc, Side::In, &names.ins),
        Object::AllOutputs => all_bits(alloc, Side::Out, &names.outs),
        Object::AllRegisters => all_registers(alloc, &names.cells),
        Object::AllClocks => all_clocks(alloc, scope),
    }
}

// What a pattern names in the first of its classes that has it.
fn named(
    alloc: Global,
    scope: &Scope,
    place: Place,
    query: &Query,
) -> Result<Seq<Thing>, AllocError>
    requires { IsTablesOf scope.now.linked.now scope.now.tables.now }
    ensures { IfOk result (λ things. things ≡
        spec.first_some (map (spec.found scope.now.linked.now scope.now.script.now query.now) (spec.classes place query.now.class))) }
{
    first_found(alloc, scope, query, classes_of(place, query.class))
}

fn first_found(
    alloc: Global,
    scope: &Scope,
    query: &Query,
    classes: &[Class],
) -> Result<Seq<Thing>, AllocError>
    requires { IsTablesOf scope.now.linked.now scope.now.tables.now }
    ensures { IfOk result (λ things. things ≡ spec.first_some (map (spec.found scope.now.linked.now scope.now.script.now query.now) classes.now)) }
{
    for class in classes {
        let things = found_in(alloc, scope, query, *class)?;
        if !things.is_empty() {
            return Ok(things);
        }
    }
    Ok(Seq::new(alloc))
}

fn classes_of(place: Place, class: Class) -> &'static [Class]
    ensures { result.now ≡ spec.classes place class }
{
    match (place, class) {
        (Place::From | Place::To, Class::Any) => &[
            Class::Ports,
            Class::Cells,
            Class::Pins,
            Class::Clocks,
        ],
        (Place::Through, Class::Any) => &[Class::Pins, Class::Cells, Class::Ports, Class::Nets],
        (_, Class::Ports) => &[Class::Ports],
        (_, Class::Cells) => &[Class::Cells],
        (_, Class::Pins) => &[Class::Pins],
        (_, Class::Nets) => &[Class::Nets],
        (_, Class::Clocks) => &[Class::Clocks],
    }
}

/// All that a pattern names in a class.
pub(crate) fn found_in(
    alloc: Global,
    scope: &Scope,
    query: &Query,
    class: Class,
) -> Result<Seq<Thing>, AllocError>
    requires { IsTablesOf scope.now.linked.now scope.now.tables.now }
    ensures { IfOk result (λ things. things ≡ spec.found scope.now.linked.now scope.now.script.now query.now class) }
{
    let mut found = Seq::new(alloc);
    match class {
        Class::Ports => add_ports(scope, query, &mut found)?,
        Class::Cells => add_cells(scope, query, &mut found)?,
        Class::Pins => add_pins(alloc, scope, query, &mut found)?,
        Class::Nets => add_nets(scope, query, &mut found)?,
        Class::Clocks => add_clocks(alloc, scope, query, &mut found)?,
        Class::Any => {}
    }
    Ok(found)
}

// Whether a pattern matches a name.
fn is_named(query: &Query, name: &Name) -> bool
    ensures { result ≡ spec.names query.now name.now }
{
    matches(query.pattern.as_bytes(), name.as_bytes(), query.hier)
}

fn add_ports(scope: &Scope, query: &Query, found: &mut Seq<Thing>) -> Result<(), AllocError>
    requires { IsTablesOf scope.now.linked.now scope.now.tables.now }
    ensures { OnOk result (found.new ≡ found.old ++ spec.found scope.now.linked.now scope.now.script.now query.now class.Ports) }
{
    if is_exact(&query.pattern, query.hier) && !scope.tables.ports.contains(&query.pattern) {
        return Ok(());
    }
    add_all_ports(&scope.linked.names, query, found)
}

fn add_all_ports(names: &Names, query: &Query, found: &mut Seq<Thing>) -> Result<(), AllocError>
    ensures { OnOk result (found.new ≡ found.old ++ spec.ports_named query.now names.now) }
{
    add_bits(Side::In, &names.ins, query, found)?;
    add_clock_port(&names.clock, query, found)?;
    add_bits(Side::Out, &names.outs, query, found)
}

fn add_bits(
    side: Side,
    ports: &Seq<PortName>,
    query: &Query,
    found: &mut Seq<Thing>,
) -> Result<(), AllocError>
    ensures { OnOk result (found.new ≡ found.old ++ each_at (spec.bit_named query.now side) 0 ports.now) }
{
    for place in 0..ports.len() {
        let named = names_bit(query, ports.item(place));
        add_where(named, bit_of(side, place), found)?;
    }
    Ok(())
}

fn bit_of(side: Side, place: usize) -> Thing
    ensures { result ≡ spec.bit_of side place }
{
    match side {
        Side::In => Thing::In(place),
        Side::Out => Thing::Out(place),
    }
}

fn add_clock_port(
    clock: &Option<PortName>,
    query: &Query,
    found: &mut Seq<Thing>,
) -> Result<(), AllocError>
    ensures { OnOk result (found.new ≡ found.old ++ spec.clock_port_named query.now clock.now) }
{
    match clock {
        Some(port) => add_where(is_named(query, &port.name), Thing::ClockPort, found),
        None => Ok(()),
    }
}

fn add_cells(scope: &Scope, query: &Query, found: &mut Seq<Thing>) -> Result<(), AllocError>
    requires { IsTablesOf scope.now.linked.now scope.now.tables.now }
    ensures { OnOk result (found.new ≡ found.old ++ each_at (spec.cell_named query.now) 0 scope.now.linked.now.names.cells) }
{
    match scope.tables.cells.look(&query.pattern, query.hier) {
        Look::Nowhere => Ok(()),
        Look::At(place) => Ok(found.push(Thing::Cell(place))?),
        Look::Anywhere => add_all_cells(&scope.linked.names.cells, query, found),
    }
}

fn add_all_cells(
    cells: &Seq<CellName>,
    query: &Query,
    found: &mut Seq<Thing>,
) -> Result<(), AllocError>
    ensures { OnOk result (found.new ≡ found.old ++ each_at (spec.cell_named query.now) 0 cells.now) }
{
    for place in 0..cells.len() {
        let named = is_named(query, &cells.item(place).name);
        add_where(named, Thing::Cell(place), found)?;
    }
    Ok(())
}

fn add_nets(scope: &Scope, query: &Query, found: &mut Seq<Thing>) -> Result<(), AllocError>
    requires { IsTablesOf scope.now.linked.now scope.now.tables.now }
    ensures { OnOk result (found.new ≡ found.old ++ each_at (spec.net_named query.now) 0 scope.now.linked.now.names.nets) }
{
    let nets = &scope.linked.names.nets;
    match scope.tables.nets.look(&query.pattern, query.hier) {
        Look::Nowhere => Ok(()),
        Look::At(place) => Ok(found.push(Thing::Net(nets.item(place).net))?),
        Look::Anywhere => add_all_nets(nets, query, found),
    }
}

fn add_all_nets(
    nets: &Seq<NetName>,
    query: &Query,
    found: &mut Seq<Thing>,
) -> Result<(), AllocError>
    ensures { OnOk result (found.new ≡ found.old ++ each_at (spec.net_named query.now) 0 nets.now) }
{
    for place in 0..nets.len() {
        let net = nets.item(place);
        add_where(is_named(query, &net.name), Thing::Net(net.net), found)?;
    }
    Ok(())
}

fn add_clocks(
    alloc: Global,
    scope: &Scope,
    query: &Query,
    found: &mut Seq<Thing>,
) -> Result<(), AllocError>
    requires { IsTablesOf scope.now.linked.now scope.now.tables.now }
    ensures { OnOk result (found.new ≡ found.old ++ each_at (spec.clock_named query.now scope.now.linked.now.names) 0 scope.now.script.now.commands) }
{
    let commands = &scope.script.commands;
    for place in 0..commands.len() {
        add_clock(alloc, scope, query, place, commands.item(place), found)?;
    }
    Ok(())
}

fn add_clock(
    alloc: Global,
    scope: &Scope,
    query: &Query,
    place: usize,
    command: &Command,
    found: &mut Seq<Thing>,
) -> Result<(), AllocError>
    requires { IsTablesOf scope.now.linked.now scope.now.tables.now }
    ensures { OnOk result (found.new ≡ found.old ++ spec.clock_named query.now scope.now.linked.now.names place command.now) }
{
    match &command.what {
        What::Clock { name, source } => {
            if names_some(query, &name_of(alloc, scope, name, source)?) {
                found.push(Thing::Clock(place, clock_kind(alloc, scope, source)?))?;
            }
            Ok(())
        }
        What::Case { .. }
        | What::Claiming(_)
        | What::Hold(_)
        | What::Aside(_)
        | What::Passed
        | What::Unjudged(_)
        | What::Scope(_)
        | What::Generated { .. }
        | What::Delay { .. } => Ok(()),
    }
}

/// Whether a pattern matches a name, if there is one.
pub(crate) fn names_some(query: &Query, name: &Option<Name>) -> bool
    ensures { result ≡ spec.names_some query.now name.now }
{
    match name {
        Some(name) => is_named(query, name),
        None => false,
    }
}

fn add_any_clock(
    alloc: Global,
    scope: &Scope,
    place: usize,
    command: &Command,
    found: &mut Seq<Thing>,
) -> Result<(), AllocError>
    requires { IsTablesOf scope.now.linked.now scope.now.tables.now }
    ensures { OnOk result (found.new ≡ found.old ++ spec.any_clock scope.now.linked.now.names place command.now) }
{
    match &command.what {
        What::Clock { source, .. } => {
            found.push(Thing::Clock(place, clock_kind(alloc, scope, source)?))?;
            Ok(())
        }
        What::Case { .. }
        | What::Claiming(_)
        | What::Hold(_)
        | What::Aside(_)
        | What::Passed
        | What::Unjudged(_)
        | What::Scope(_)
        | What::Generated { .. }
        | What::Delay { .. } => Ok(()),
    }
}

fn all_bits(alloc: Global, side: Side, ports: &Seq<PortName>) -> Result<Seq<Thing>, AllocError>
    ensures { IfOk result (λ things. things ≡ each_at (λ place (p : PortRecord). spec.bit_of side place ∷ []) 0 ports.now) }
{
    let mut found = Seq::new(alloc);
    for place in 0..ports.len() {
        found.push(bit_of(side, place))?;
    }
    Ok(found)
}

fn all_registers(alloc: Global, cells: &Seq<CellName>) -> Result<Seq<Thing>, AllocError>
    ensures { IfOk result (λ things. things ≡ each_at (λ k (c : CellRecord). spec.cell_of_reg k c.reg) 0 cells.now) }
{
    let mut found = Seq::new(alloc);
    for place in 0..cells.len() {
        let registered = cells.item(place).reg.is_some();
        add_where(registered, Thing::Cell(place), &mut found)?;
    }
    Ok(found)
}

fn all_clocks(alloc: Global, scope: &Scope) -> Result<Seq<Thing>, AllocError>
    requires { IsTablesOf scope.now.linked.now scope.now.tables.now }
    ensures { IfOk result (λ things. things ≡ each_at (spec.any_clock scope.now.linked.now.names) 0 scope.now.script.now.commands) }
{
    let commands = &scope.script.commands;
    let mut found = Seq::new(alloc);
    for place in 0..commands.len() {
        add_any_clock(alloc, scope, place, commands.item(place), &mut found)?;
    }
    Ok(found)
}
