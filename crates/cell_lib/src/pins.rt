//! The pins of a cell.
ghost use Rattle.std.specs.Prelude.{◌≡◌, ◌++◌, IfOk, OnOk};
ghost use Rattle.std.specs.List.{list_all, list_any};
ghost use Rattle.texts.specs.Names.{each_once};
ghost use Rattle.cell_lib.specs.Pins as spec;

use crate::values::{expr_of, says};
use lib_func::Expr;
use lib_words::{Attribute, AttributeKind, CellGroup, Part, PartKind};
use sdcv_base::{Name, Seq};
use std::alloc::{AllocError, Global};
use texts::NameTable;

/// Which names of a cell are meant.
#[derive(Clone, Copy)]
pub enum Role {
    Input,
    /// The clock pin of a clock gate.
    GateClock,
    /// The other input pins of a clock gate.
    GateData,
    Output,
    Power,
    /// Pins and power pins.
    Pin,
    /// Whatever has a name of its own in a cell: pins, power pins, and the state and its complement.
    Any,
    /// Input pins, and buses and bundles of them.
    WideInput,
    /// Output pins, and buses and bundles of them.
    WideOutput,
}

/// An output pin and its function, where one is given.
#[derive(Drop)]
pub struct OutPin {
    pub name: Name,
    pub func: Option<Expr>,
}

/// Whether the group is of input pins.
pub fn is_input(part: &Part) -> bool
    ensures { result ≡ spec.is_input part.now }
{
    matches!(part.kind, PartKind::Pin)
        && says(
            part.attributes.as_slice(),
            AttributeKind::Direction,
            "input",
        )
}

/// Whether the group is of output pins.
pub fn is_output(part: &Part) -> bool
    ensures { result ≡ spec.is_output part.now }
{
    matches!(part.kind, PartKind::Pin)
        && says(
            part.attributes.as_slice(),
            AttributeKind::Direction,
            "output",
        )
}

/// Whether the group is of pins, or of several at once.
fn is_wide_pin(kind: PartKind) -> bool
    ensures { result ≡ spec.is_wide_pin kind }
{
    matches!(kind, PartKind::Pin | PartKind::Bus | PartKind::Bundle)
}

/// Whether the group is of pins, buses or bundles of this direction.
fn is_wide(part: &Part, direction: &str) -> bool
    ensures { result ≡ spec.is_wide direction.now part.now }
{
    is_wide_pin(part.kind)
        && says(
            part.attributes.as_slice(),
            AttributeKind::Direction,
            direction,
        )
}

/// Whether the group, if it is of pins, is of inputs or of outputs.
fn is_directed(part: &Part) -> bool
    ensures { result ≡ spec.is_directed part.now }
{
    !matches!(part.kind, PartKind::Pin) || is_input(part) || is_output(part)
}

/// Whether each pin is an input or an output.
pub fn are_directed(parts: &[Part]) -> bool
    ensures { result ≡ list_all spec.is_directed parts.now }
{
    parts.iter().all(is_directed)
}

/// Whether a cell with such a group is not modelled, and its functions are not read.
fn is_unmodelled_group(kind: PartKind) -> bool
    ensures { result ≡ spec.is_unmodelled_group kind }
{
    matches!(
        kind,
        PartKind::FfBank
            | PartKind::Latch
            | PartKind::LatchBank
            | PartKind::Statetable
            | PartKind::Bus
            | PartKind::Bundle
    )
}

/// Whether a group stands there with which a cell is not modelled, and its functions are not read.
pub fn has_unmodelled_group(parts: &[Part]) -> bool
    ensures { result ≡ spec.has_unmodelled_group parts.now }
{
    parts.iter().any(|part| is_unmodelled_group(part.kind))
}

/// Whether a cell with such an attribute is not modelled.
fn is_unmodelled_attribute(kind: AttributeKind) -> bool
    ensures { result ≡ spec.is_unmodelled_attribute kind }
{
    matches!(
        kind,
        AttributeKind::ThreeState
            | AttributeKind::ClockedOnAlso
            | AttributeKind::ClockGatingIntegratedCell
    )
}

/// Whether such an attribute stands among these.
fn has_unmodelled_attribute(attributes: &[Attribute]) -> bool
    ensures { result ≡ spec.has_unmodelled_attribute attributes.now }
{
    attributes.iter().any(|a| is_unmodelled_attribute(a.kind))
}

/// Whether such an attribute stands in the group, which is of no memory.
fn is_unmodelled_part(part: &Part) -> bool
    ensures { result ≡ spec.is_unmodelled_part part.now }
{
    !matches!(part.kind, PartKind::Memory) && has_unmodelled_attribute(part.attributes.as_slice())
}

/// Whether such an attribute stands in one of the groups.
fn has_unmodelled_part(parts: &[Part]) -> bool
    ensures { result ≡ spec.has_unmodelled_part parts.now }
{
    parts.iter().any(is_unmodelled_part)
}

/// Whether each group and attribute of the cell can be modelled.
pub fn can_be_modelled(group: &CellGroup) -> bool
    ensures { result ≡ spec.can_be_modelled group.now }
{
    let parts = group.parts.as_slice();
    let has_attribute = has_unmodelled_attribute(group.attributes.as_slice());
    !has_unmodelled_group(parts) && !(has_attribute || has_unmodelled_part(parts))
}

/// Whether the attribute is given as true.
pub fn has_true(part: &Part, kind: AttributeKind) -> bool
    ensures { result ≡ spec.has_true kind part.now }
{
    says(part.attributes.as_slice(), kind, "true")
}

/// Whether the group is of the clock pin of a clock gate.
fn is_gate_clock(part: &Part) -> bool
    ensures { result ≡ spec.is_gate_clock part.now }
{
    is_input(part) && has_true(part, AttributeKind::ClockGateClockPin)
}

/// Whether the group is of other input pins.
fn is_gate_data(part: &Part) -> bool
    ensures { result ≡ spec.is_gate_data part.now }
{
    is_input(part) && !has_true(part, AttributeKind::ClockGateClockPin)
}

/// Whether the names of the group are meant.
fn has_role(role: Role, part: &Part) -> bool
    ensures { result ≡ spec.has_role role part.now }
{
    match role {
        Role::Input => is_input(part),
        Role::GateClock => is_gate_clock(part),
        Role::GateData => is_gate_data(part),
        Role::Output => is_output(part),
        Role::Power => matches!(part.kind, PartKind::PgPin),
        Role::Pin => matches!(part.kind, PartKind::Pin | PartKind::PgPin),
        Role::Any => matches!(part.kind, PartKind::Pin | PartKind::PgPin | PartKind::Ff),
        Role::WideInput => is_wide(part, "input"),
        Role::WideOutput => is_wide(part, "output"),
    }
}

/// Appends copies of names.
pub fn push_names(alloc: Global, found: &mut Seq<Name>, names: &[Name]) -> Result<(), AllocError>
    ensures { OnOk result (found.new ≡ found.old ++ names.now) }
{
    for name in names {
        found.push(name.copy(alloc)?)?;
    }
    Ok(())
}

/// The names that are meant, in the order of the text.
pub fn names_of(alloc: Global, parts: &[Part], role: Role) -> Result<Seq<Name>, AllocError>
    ensures { IfOk result (λ names. names ≡ spec.names_of role parts.now) }
{
    let mut found = Seq::new(alloc);
    for part in parts {
        if has_role(role, part) {
            push_names(alloc, &mut found, part.names.as_slice())?;
        }
    }
    Ok(found)
}

/// The same names, each once.
pub fn names_once(alloc: Global, parts: &[Part], role: Role) -> Result<Seq<Name>, AllocError>
    ensures { IfOk result (λ names. names ≡ each_once (spec.names_of role parts.now)) }
{
    let names = names_of(alloc, parts, role)?;
    let mut table = NameTable::new(alloc);
    table.add_all(alloc, names.as_slice())?;
    Ok(Seq::from_vec(table.names(alloc)?))
}

/// Appends the output pins that a group names.
fn push_outs(alloc: Global, found: &mut Seq<OutPin>, part: &Part) -> Result<(), AllocError>
    ensures { OnOk result (found.new ≡ found.old ++ spec.outs_in part.now) }
{
    if !is_output(part) {
        return Ok(());
    }
    for name in part.names.as_slice() {
        let name = name.copy(alloc)?;
        let func = expr_of(alloc, part.attributes.as_slice(), AttributeKind::Function)?;
        found.push(OutPin { name, func })?;
    }
    Ok(())
}

/// The output pins, in the order of the text.
pub fn outs_of(alloc: Global, parts: &[Part]) -> Result<Seq<OutPin>, AllocError>
    ensures { IfOk result (λ outs. outs ≡ spec.outs_of parts.now) }
{
    let mut found = Seq::new(alloc);
    for part in parts {
        push_outs(alloc, &mut found, part)?;
    }
    Ok(found)
}

/// Whether the names that are meant differ.
#[tactic(auto, using(texts::proofs::NameLemmas::are_new_none))]
pub fn names_differ(alloc: Global, parts: &[Part], role: Role) -> Result<bool, AllocError>
    ensures { IfOk result (λ b. b ≡ spec.names_differ role parts.now) }
{
    let names = names_of(alloc, parts, role)?;
    let mut table = NameTable::new(alloc);
    let differ = table.add_all(alloc, names.as_slice())?;
    Ok(differ)
}
