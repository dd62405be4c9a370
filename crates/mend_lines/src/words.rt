//! The words of a command.
ghost use Rattle.std.specs.Prelude.{◌≡◌, IfOk, string_bytes};
ghost use Rattle.exception_expand.specs.Asking.{asked_by};
ghost use Rattle.mend_lines.specs.Lines as spec;

use exception_expand::{Ask, Sides};
use mend_groups::{EndClass, Group, Row};
use net_model::Start;
use script_types::{Checks, Class};
use sdcv_base::{Edge, Kind};
use std::alloc::{AllocError, Global};

fn kind_words(alloc: Global, kind: Kind) -> Result<String, AllocError>
    ensures { IfOk result (λ text. string_bytes text ≡ spec.kind_words kind) }
{
    match kind {
        Kind::False => String::from_str(alloc, "set_false_path"),
        Kind::Multi(k) => format!(in alloc; "set_multicycle_path {k}"),
    }
}

fn checks_words(checks: Checks) -> &'static str
    ensures { result.now ≡ spec.checks_words checks }
{
    match checks {
        Checks::Unsaid => "",
        Checks::Setup => " -setup",
        Checks::Both => " -setup -hold",
    }
}

fn alone_words(early: bool) -> &'static str
    ensures { result.now ≡ spec.alone_words early }
{
    if early { " -hold" } else { " -setup" }
}

fn sided_words(checks: Checks, row: &Row) -> &'static str
    ensures { result.now ≡ spec.sided_words checks row.now }
{
    if row.beside {
        checks_words(checks)
    } else {
        alone_words(row.early)
    }
}

fn star_words(checks: Checks, star: &[Row]) -> &'static str
    ensures { result.now ≡ spec.group_checks Sides.Both checks star.now }
{
    match star.first() {
        Some(row) => sided_words(checks, row),
        None => "",
    }
}

fn group_checks(sides: Sides, checks: Checks, star: &[Row]) -> &'static str
    ensures { result.now ≡ spec.group_checks sides checks star.now }
{
    match sides {
        Sides::Late => checks_words(checks),
        Sides::Early | Sides::Both => star_words(checks, star),
    }
}

fn first_star(group: &Group) -> &[Row]
    ensures { result.now ≡ spec.first_star group.now }
{
    match group.stars.as_slice().first() {
        Some(star) => star.as_slice(),
        None => &[],
    }
}

/// The first words of a group's commands: those of the exception's kind, and the checks that they name.
pub(crate) fn head_of(alloc: Global, ask: &Ask<'_>, group: &Group) -> Result<String, AllocError>
    ensures { IfOk result (λ text. string_bytes text ≡ spec.head_of (asked_by ask.now) group.now) }
{
    let kind = kind_words(alloc, ask.kind)?;
    let checks = group_checks(ask.sides, ask.checks, first_star(group));
    format!(in alloc; "{kind}{checks}")
}

/// The option of the start.
pub(crate) fn from_word(edge: Edge) -> &'static str
    ensures { result.now ≡ spec.from_word edge }
{
    match edge {
        Edge::Any => " -from",
        Edge::Rise => " -rise_from",
        Edge::Fall => " -fall_from",
    }
}

pub(crate) fn get_start(start: Start) -> &'static str
    ensures { result.now ≡ spec.get_start start }
{
    match start {
        Start::Reg(_) => "get_cells",
        Start::Input(_) => "get_ports",
    }
}

pub(crate) fn get_end(class: EndClass) -> &'static str
    ensures { result.now ≡ spec.get_end class }
{
    match class {
        EndClass::Regs => "get_cells",
        EndClass::Ports => "get_ports",
        EndClass::Sinks => "get_pins",
    }
}

pub(crate) fn class_word(class: Class) -> &'static str
    ensures { result.now ≡ spec.class_word class }
{
    match class {
        Class::Ports => "get_ports",
        Class::Cells => "get_cells",
        Class::Pins => "get_pins",
        Class::Nets => "get_nets",
        Class::Clocks => "get_clocks",
        Class::Any => "",
    }
}

pub(crate) fn hier_word(hier: bool) -> &'static str
    ensures { result.now ≡ spec.hier_word hier }
{
    if hier { " -hierarchical" } else { "" }
}
