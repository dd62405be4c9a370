//! The table of what things stand for, a column for each place of an exception.
ghost use Rattle.std.specs.Prelude.{◌≡◌, ◌++◌, ◌∷◌, [], true, not, if◌then◌else◌, map, ℕ, Bool, List, Option, None, IfOk, OnOk, slice_get, slice_index};
ghost use Rattle.std.specs.List.{list_all};
ghost use Rattle.linked_types.specs.declared.names.PinName.{PinName as PinRecord};
ghost use Rattle.std.specs.Option.{is_some};
ghost use Rattle.net_model.specs.declared.claims.PinRef.TheVariants.{Net as NetPin};
ghost use Rattle.sdcv_base.specs.declared.kinds.Edge.{Edge as EdgeEnum};
ghost use Rattle.linked_types.specs.declared.names.Linked.{Linked as LinkedRecord};
ghost use Rattle.sdc_objects.specs.declared.things.Thing.{Thing as ThingEnum};
ghost use Rattle.sdc_objects.specs.declared.things.Thing.TheVariants as things;
ghost use Rattle.sdc_objects.specs.declared.things.Place.{Place as PlaceEnum};
ghost use Rattle.sdc_objects.specs.declared.things.Place.TheVariants as places;
ghost use Rattle.sdcv_base.specs.Seqs.{option_list};
ghost use Rattle.script_types.specs.declared.scripts.Script.{Script as ScriptRecord};
ghost use Rattle.sdc_objects.specs.Tables.{IsTablesOf};
ghost use Rattle.sdc_objects.specs.Standing as spec;

use crate::cuts::{add_cell_ends, add_cell_starts};
use crate::scopes::Scope;
use crate::strict::{add_clock_ends, add_clock_starts, add_fall_start, add_rise_start};
use crate::things::{ClockKind, Place, Thing};
use linked_types::{CellName, Linked, PinName, PinRole};
use net_model::{Design, Edge, End, PinRef, RegOut, Start};
use sdcv_base::Seq;
use std::alloc::{AllocError, Global};

/// What things stand for in one place of an exception, in a run that is strict or not. An edge is that of the option of the
/// place; only starts have one.
pub trait Column: Copy + Drop {
    ghost column: { LinkedRecord → ScriptRecord → Bool → EdgeEnum → ThingEnum → Option (List Self) };

    ghost at: { PlaceEnum };

    /// The place of this column.
    fn place() -> Place
        ensures { result ≡ at };

    /// Adds what a thing stands for, and tells whether it isn't dropped.
    fn add(
        alloc: Global,
        scope: &Scope,
        edge: Edge,
        thing: Thing,
        found: &mut Seq<Self>,
    ) -> Result<bool, AllocError>
        requires { IsTablesOf scope.now.linked.now scope.now.tables.now }
        ensures kept { IfOk result (λ kept.
            kept ≡ not (spec.is_dropped (column scope.now.linked.now scope.now.script.now scope.now.strict edge thing))) }
        ensures added { OnOk result
            (found.new ≡ found.old ++ spec.meant_by (column scope.now.linked.now scope.now.script.now scope.now.strict edge thing)) };
}

impl Column for Start {
    ghost column = { spec.from_column };

    ghost at = { places.From };

    fn place() -> Place {
        Place::From
    }

    fn add(
        alloc: Global,
        scope: &Scope,
        edge: Edge,
        thing: Thing,
        found: &mut Seq<Start>,
    ) -> Result<bool, AllocError> {
        match (scope.strict, edge) {
            (false, Edge::Any) => add_start(scope.linked, thing, found),
            (false, Edge::Rise | Edge::Fall) => add_edge_start(scope.linked, thing, found),
            (true, Edge::Any) => add_clock_starts(alloc, scope, thing, found),
            (true, Edge::Rise) => add_rise_start(scope.linked, thing, found),
            (true, Edge::Fall) => add_fall_start(thing, found),
        }
    }
}

impl Column for End {
    ghost column = { λ l script strict edge. spec.to_column l script strict };

    ghost at = { places.To };

    fn place() -> Place {
        Place::To
    }

    fn add(
        alloc: Global,
        scope: &Scope,
        _edge: Edge,
        thing: Thing,
        found: &mut Seq<End>,
    ) -> Result<bool, AllocError> {
        if scope.strict {
            add_clock_ends(alloc, scope, thing, found)
        } else {
            add_end(scope.linked, thing, found)
        }
    }
}

impl Column for PinRef {
    ghost column = { λ l script strict edge. spec.through_column l };

    ghost at = { places.Through };

    fn place() -> Place {
        Place::Through
    }

    fn add(
        _alloc: Global,
        scope: &Scope,
        _edge: Edge,
        thing: Thing,
        found: &mut Seq<PinRef>,
    ) -> Result<bool, AllocError> {
        let linked = scope.linked;
        match thing {
            Thing::Cell(k) => add_cell_pins(scope, k, found),
            Thing::Pin(k, place) => add_pin(scope, k, place, found),
            Thing::In(input) => add_one(Some(PinRef::Net(input_net(&linked.design, input))), found),
            Thing::Out(output) => add_one(Some(PinRef::OutPort(output)), found),
            Thing::Net(net) => add_one(Some(PinRef::Net(net)), found),
            Thing::ClockPort | Thing::Clock(_, ClockKind::Judged | ClockKind::Other) => Ok(false),
            Thing::Clock(_, ClockKind::Virtual) | Thing::Delayed(_) => Ok(true),
        }
    }
}

/// Adds the starts that a thing stands for at each of their changes.
pub(crate) fn add_start(
    linked: &Linked,
    thing: Thing,
    found: &mut Seq<Start>,
) -> Result<bool, AllocError>
    ensures kept { IfOk result (λ kept. kept ≡ not (spec.is_dropped (spec.stands linked.now thing).from)) }
    ensures added { OnOk result (found.new ≡ found.old ++ spec.meant_by (spec.stands linked.now thing).from) }
{
    let cells = &linked.names.cells;
    match thing {
        Thing::Cell(k) => add_cell_starts(cells, k, found),
        Thing::Pin(k, place) => add_one(pin_start(linked, k, place), found),
        Thing::In(input) => add_one(Some(Start::Input(input)), found),
        Thing::Out(_) | Thing::ClockPort | Thing::Net(_) => Ok(false),
        Thing::Clock(_, kind) => add_reg_starts(&linked.design, kind, found),
        Thing::Delayed(_) => Ok(true),
    }
}

// Adds the starts that a thing stands for at one of their changes.
fn add_edge_start(linked: &Linked, thing: Thing, found: &mut Seq<Start>) -> Result<bool, AllocError>
    ensures kept { IfOk result (λ kept. kept ≡ not (spec.is_dropped (spec.edge_column linked.now thing))) }
    ensures added { OnOk result (found.new ≡ found.old ++ spec.meant_by (spec.edge_column linked.now thing)) }
{
    match thing {
        Thing::Pin(k, place) => add_one(edge_start(linked, k, place), found),
        Thing::Clock(_, ClockKind::Judged) => Ok(false),
        _ => add_start(linked, thing, found),
    }
}

/// Adds the ends that a thing stands for.
pub(crate) fn add_end(
    linked: &Linked,
    thing: Thing,
    found: &mut Seq<End>,
) -> Result<bool, AllocError>
    ensures kept { IfOk result (λ kept. kept ≡ not (spec.is_dropped (spec.stands linked.now thing).to)) }
    ensures added { OnOk result (found.new ≡ found.old ++ spec.meant_by (spec.stands linked.now thing).to) }
{
    let cells = &linked.names.cells;
    match thing {
        Thing::Cell(k) => add_cell_ends(cells, k, found),
        Thing::Pin(k, place) => add_one(pin_end(linked, k, place), found),
        Thing::Out(output) => add_one(Some(End::Output(output)), found),
        Thing::In(_) | Thing::ClockPort | Thing::Net(_) => Ok(false),
        Thing::Clock(_, kind) => add_reg_ends(&linked.design, kind, found),
        Thing::Delayed(_) => Ok(true),
    }
}

/// Adds what there is, and tells whether there is anything.
pub(crate) fn add_one<T: Copy + Drop>(
    one: Option<T>,
    found: &mut Seq<T>,
) -> Result<bool, AllocError>
    ensures kept { IfOk result (λ kept. kept ≡ is_some one) }
    ensures added { OnOk result (found.new ≡ found.old ++ option_list one) }
{
    match one {
        Some(one) => {
            found.push(one)?;
            Ok(true)
        }
        None => Ok(false),
    }
}

/// The register as a start, if there is one.
pub(crate) fn reg_start(reg: Option<usize>) -> Option<Start>
    ensures { spec.one_of result ≡ spec.reg_start reg }
{
    match reg {
        Some(reg) => Some(Start::Reg(reg)),
        None => None,
    }
}

fn reg_end(reg: Option<usize>) -> Option<End>
    ensures { spec.one_of result ≡ spec.reg_end reg }
{
    match reg {
        Some(reg) => Some(End::Reg(reg)),
        None => None,
    }
}

// The register whose clock or output pin it is, or the input that the pin drives.
fn pin_start(linked: &Linked, k: usize, place: usize) -> Option<Start>
    ensures { (cut : Bool) → spec.one_of result ≡ (spec.pin_at_row linked.now.design cut (slice_get linked.now.names.cells k) place).from }
{
    let cell = linked.names.cells.as_slice().get(k)?;
    let pin = cell.pins.as_slice().get(place)?;
    match &pin.role {
        PinRole::Clock | PinRole::Drive(_) => reg_start(cell.reg),
        PinRole::Source(input) => Some(Start::Input(*input)),
        PinRole::Load(_) | PinRole::Sink(_) => None,
    }
}

// The register whose output pin it is, and whose bit the pin shows as it is, or the input that the pin drives.
fn edge_start(linked: &Linked, k: usize, place: usize) -> Option<Start>
    ensures { spec.one_of result ≡ spec.pin_by (spec.edge_pin linked.now.design) (slice_get linked.now.names.cells k) place }
{
    let cell = linked.names.cells.as_slice().get(k)?;
    let pin = cell.pins.as_slice().get(place)?;
    edge_role(&linked.design, cell.reg, &pin.role)
}

/// What a pin stands for at one of the changes of a start, by its role and the register of its cell.
pub(crate) fn edge_role(design: &Design, reg: Option<usize>, role: &PinRole) -> Option<Start>
    ensures { spec.one_of result ≡ spec.edge_pin design.now reg role.now }
{
    match role {
        PinRole::Drive(net) => reg_start(upright_reg(design, reg, *net)),
        PinRole::Source(input) => Some(Start::Input(*input)),
        PinRole::Clock | PinRole::Load(_) | PinRole::Sink(_) => None,
    }
}

// The register, unless its output on the net is inverted.
fn upright_reg(design: &Design, reg: Option<usize>, net: usize) -> Option<usize>
    ensures { result ≡ (if spec.is_inverted design.now reg net then None else reg) }
{
    if is_inverted(design, reg, net) {
        None
    } else {
        reg
    }
}

fn is_inverted(design: &Design, reg: Option<usize>, net: usize) -> bool
    ensures { result ≡ spec.is_inverted design.now reg net }
{
    let Some(reg) = reg else {
        return false;
    };
    match design.regs.as_slice().get(reg) {
        Some(reg) => has_inverted(&reg.outs, net),
        None => false,
    }
}

fn has_inverted(outs: &Seq<RegOut>, net: usize) -> bool
    ensures { result ≡ spec.has_inverted outs.now net }
{
    outs.as_slice()
        .iter()
        .any(|out| out.net == net && out.inverted)
}

// The register whose other input pin it is, or the output that the pin reads for.
fn pin_end(linked: &Linked, k: usize, place: usize) -> Option<End>
    ensures { (cut : Bool) → spec.one_of result ≡ (spec.pin_at_row linked.now.design cut (slice_get linked.now.names.cells k) place).to }
{
    let cell = linked.names.cells.as_slice().get(k)?;
    let pin = cell.pins.as_slice().get(place)?;
    match &pin.role {
        PinRole::Load(_) => reg_end(cell.reg),
        PinRole::Sink(output) => Some(End::Output(*output)),
        PinRole::Clock | PinRole::Drive(_) | PinRole::Source(_) => None,
    }
}

// A clock that is not judged is dropped, and one without a source stands for nothing.
fn add_reg_starts(
    design: &Design,
    kind: ClockKind,
    found: &mut Seq<Start>,
) -> Result<bool, AllocError>
    ensures kept { IfOk result (λ kept. kept ≡ not (spec.is_dropped (spec.clock_row design.now kind).from)) }
    ensures added { OnOk result (found.new ≡ found.old ++ spec.meant_by (spec.clock_row design.now kind).from) }
{
    match kind {
        ClockKind::Judged => {
            push_reg_starts(design, found)?;
            Ok(true)
        }
        ClockKind::Other => Ok(false),
        ClockKind::Virtual => Ok(true),
    }
}

/// Adds each register as a start.
pub(crate) fn push_reg_starts(design: &Design, found: &mut Seq<Start>) -> Result<(), AllocError>
    ensures { OnOk result (found.new ≡ found.old ++ spec.all_reg_starts design.now) }
{
    for reg in 0..design.regs.len() {
        found.push(Start::Reg(reg))?;
    }
    Ok(())
}

fn add_reg_ends(design: &Design, kind: ClockKind, found: &mut Seq<End>) -> Result<bool, AllocError>
    ensures kept { IfOk result (λ kept. kept ≡ not (spec.is_dropped (spec.clock_row design.now kind).to)) }
    ensures added { OnOk result (found.new ≡ found.old ++ spec.meant_by (spec.clock_row design.now kind).to) }
{
    match kind {
        ClockKind::Judged => {
            push_reg_ends(design, found)?;
            Ok(true)
        }
        ClockKind::Other => Ok(false),
        ClockKind::Virtual => Ok(true),
    }
}

/// Adds each register as an end.
pub(crate) fn push_reg_ends(design: &Design, found: &mut Seq<End>) -> Result<(), AllocError>
    ensures { OnOk result (found.new ≡ found.old ++ spec.all_reg_ends design.now) }
{
    for reg in 0..design.regs.len() {
        found.push(End::Reg(reg))?;
    }
    Ok(())
}

fn input_net(design: &Design, input: usize) -> usize
    ensures { result ≡ slice_index design.now.inputs input }
{
    design.inputs.as_slice().get(input).copied().unwrap_or(0)
}

// The output nets of a cell that is a register, stands off the clock tree or is cut out.
fn add_cell_pins(scope: &Scope, k: usize, found: &mut Seq<PinRef>) -> Result<bool, AllocError>
    requires { IsTablesOf scope.now.linked.now scope.now.tables.now }
    ensures kept { IfOk result (λ kept. kept ≡ not (spec.is_dropped (spec.stands scope.now.linked.now (things.Cell k)).through)) }
    ensures added { OnOk result (found.new ≡ found.old ++ spec.meant_by (spec.stands scope.now.linked.now (things.Cell k)).through) }
{
    let cut = scope.tables.is_cut(k);
    add_cell_at(&scope.linked.names.cells, cut, k, found)
}

fn add_cell_at(
    cells: &Seq<CellName>,
    cut: bool,
    k: usize,
    found: &mut Seq<PinRef>,
) -> Result<bool, AllocError>
    ensures kept { IfOk result (λ kept. kept ≡ not (spec.is_dropped (spec.cell_at_row cut (slice_get cells.now k)).through)) }
    ensures added { OnOk result (found.new ≡ found.old ++ spec.meant_by (spec.cell_at_row cut (slice_get cells.now k)).through) }
{
    match cells.as_slice().get(k) {
        Some(cell) => add_cell(cell, cut, found),
        None => Ok(false),
    }
}

fn add_cell(cell: &CellName, cut: bool, found: &mut Seq<PinRef>) -> Result<bool, AllocError>
    ensures kept { IfOk result (λ kept. kept ≡ not (spec.is_dropped (spec.cell_outs cut cell.now cell.now.reg))) }
    ensures added { OnOk result (found.new ≡ found.old ++ spec.meant_by (spec.cell_outs cut cell.now cell.now.reg)) }
{
    match cell.reg {
        Some(_) => add_outs(cell, found),
        None => add_free_outs(cell, cut, found),
    }
}

fn add_outs(cell: &CellName, found: &mut Seq<PinRef>) -> Result<bool, AllocError>
    ensures kept { IfOk result (λ kept. kept ≡ true) }
    ensures added { OnOk result (found.new ≡ found.old ++ map NetPin cell.now.outs) }
{
    add_nets(&cell.outs, found)?;
    Ok(true)
}

// Of a cell that is no register.
fn add_free_outs(cell: &CellName, cut: bool, found: &mut Seq<PinRef>) -> Result<bool, AllocError>
    ensures kept { IfOk result (λ kept. kept ≡ not (spec.is_dropped (spec.cell_outs cut cell.now None))) }
    ensures added { OnOk result (found.new ≡ found.old ++ spec.meant_by (spec.cell_outs cut cell.now None)) }
{
    if !cut && is_on_tree(cell) {
        return Ok(false);
    }
    add_outs(cell, found)
}

fn is_on_tree(cell: &CellName) -> bool
    ensures { result ≡ spec.is_on_tree cell.now }
{
    cell.outs.len() == 0 && are_clock_pins(&cell.pins)
}

fn are_clock_pins(pins: &Seq<PinName>) -> bool
    ensures { result ≡ list_all (λ (p : PinRecord). spec.is_clock_role p.role) pins.now }
{
    for k in 0..pins.len() {
        if !is_clock_role(&pins.item(k).role) {
            return false;
        }
    }
    true
}

fn is_clock_role(role: &PinRole) -> bool
    ensures { result ≡ spec.is_clock_role role.now }
{
    match role {
        PinRole::Clock => true,
        PinRole::Load(_) | PinRole::Drive(_) | PinRole::Source(_) | PinRole::Sink(_) => false,
    }
}

fn add_nets(nets: &Seq<usize>, found: &mut Seq<PinRef>) -> Result<(), AllocError>
    ensures { OnOk result (found.new ≡ found.old ++ map NetPin nets.now) }
{
    for k in 0..nets.len() {
        found.push(PinRef::Net(nets.at(k)))?;
    }
    Ok(())
}

fn add_pin(
    scope: &Scope,
    k: usize,
    place: usize,
    found: &mut Seq<PinRef>,
) -> Result<bool, AllocError>
    requires { IsTablesOf scope.now.linked.now scope.now.tables.now }
    ensures kept { IfOk result (λ kept. kept ≡ not (spec.is_dropped (spec.stands scope.now.linked.now (things.Pin k place)).through)) }
    ensures added { OnOk result (found.new ≡ found.old ++ spec.meant_by (spec.stands scope.now.linked.now (things.Pin k place)).through) }
{
    let cut = scope.tables.is_cut(k);
    add_pin_at(scope.linked, cut, k, place, found)
}

fn add_pin_at(
    linked: &Linked,
    cut: bool,
    k: usize,
    place: usize,
    found: &mut Seq<PinRef>,
) -> Result<bool, AllocError>
    ensures kept { IfOk result (λ kept.
        kept ≡ not (spec.is_dropped (spec.pin_at_row linked.now.design cut (slice_get linked.now.names.cells k) place).through)) }
    ensures added { OnOk result
        (found.new ≡ found.old ++ spec.meant_by (spec.pin_at_row linked.now.design cut (slice_get linked.now.names.cells k) place).through) }
{
    match linked.names.cells.as_slice().get(k) {
        Some(cell) => add_pin_of(&linked.design, cell, cut, place, found),
        None => Ok(false),
    }
}

fn add_pin_of(
    design: &Design,
    cell: &CellName,
    cut: bool,
    place: usize,
    found: &mut Seq<PinRef>,
) -> Result<bool, AllocError>
    ensures kept { IfOk result (λ kept.
        kept ≡ not (spec.is_dropped (spec.role_row design.now cut cell.now.reg (slice_get cell.now.pins place)).through)) }
    ensures added { OnOk result
        (found.new ≡ found.old ++ spec.meant_by (spec.role_row design.now cut cell.now.reg (slice_get cell.now.pins place)).through) }
{
    match cell.pins.as_slice().get(place) {
        Some(pin) => add_role(design, cut, &pin.role, found),
        None => Ok(false),
    }
}

fn add_role(
    design: &Design,
    cut: bool,
    role: &PinRole,
    found: &mut Seq<PinRef>,
) -> Result<bool, AllocError>
    ensures kept { (reg : Option ℕ) → IfOk result (λ kept. kept ≡ not (spec.is_dropped (spec.pin_row design.now cut reg role.now).through)) }
    ensures added { (reg : Option ℕ) → OnOk result (found.new ≡ found.old ++ spec.meant_by (spec.pin_row design.now cut reg role.now).through) }
{
    match role {
        PinRole::Clock => Ok(false),
        PinRole::Drive(net) => add_one(Some(PinRef::Net(*net)), found),
        PinRole::Source(input) => add_one(Some(PinRef::Net(input_net(design, *input))), found),
        PinRole::Sink(output) => add_one(Some(PinRef::OutPort(*output)), found),
        PinRole::Load(pins) => add_load(cut, pins, found),
    }
}

// The pins that read with an input pin, of a cell that is not cut out.
fn add_load(cut: bool, pins: &Seq<PinRef>, found: &mut Seq<PinRef>) -> Result<bool, AllocError>
    ensures kept { IfOk result (λ kept. kept ≡ not cut) }
    ensures added { OnOk result (found.new ≡ found.old ++ (if cut then [] else pins.now)) }
{
    if cut {
        return Ok(false);
    }
    add_loads(pins, found)?;
    Ok(true)
}

fn add_loads(pins: &Seq<PinRef>, found: &mut Seq<PinRef>) -> Result<(), AllocError>
    ensures { OnOk result (found.new ≡ found.old ++ pins.now) }
{
    for k in 0..pins.len() {
        found.push(pins.at(k))?;
    }
    Ok(())
}
