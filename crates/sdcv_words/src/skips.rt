//! The list of names of commands that are passed over.
ghost use Rattle.std.specs.Prelude.{◌≡◌, ◌==◌, IfOk, Some, map};
ghost use Rattle.std.specs.List.{list_all, list_any, slice_split};
ghost use Rattle.std.specs.Str.{bytes_eq};
ghost use Rattle.sdcv_words.specs.Skips.{is_one_of, may_be_skipped, passed_names, read_names, skips_of, tcl_names};

use crate::settings::parts;
use sdcv_base::{Name, Seq};
use std::alloc::{AllocError, Global};

const READ: [&str; 10] = [
    "set",
    "create_clock",
    "set_case_analysis",
    "set_false_path",
    "set_multicycle_path",
    "set_logic_zero",
    "set_logic_one",
    "create_generated_clock",
    "current_instance",
    "set_hierarchy_separator",
];

const PASSED: [&str; 44] = [
    "set_input_delay",
    "set_output_delay",
    "set_load",
    "set_driving_cell",
    "set_drive",
    "set_input_transition",
    "set_fanout_load",
    "set_port_fanout_number",
    "set_resistance",
    "set_ideal_network",
    "set_clock_uncertainty",
    "set_clock_latency",
    "set_clock_transition",
    "set_propagated_clock",
    "set_clock_groups",
    "set_clock_gating_check",
    "set_ideal_latency",
    "set_ideal_transition",
    "set_data_check",
    "set_min_pulse_width",
    "set_disable_timing",
    "set_timing_derate",
    "set_max_delay",
    "set_min_delay",
    "set_max_transition",
    "set_max_fanout",
    "set_max_capacitance",
    "set_max_area",
    "set_min_capacitance",
    "set_max_dynamic_power",
    "set_max_leakage_power",
    "set_dont_touch",
    "group_path",
    "set_units",
    "set_operating_conditions",
    "set_wire_load_model",
    "set_wire_load_mode",
    "set_wire_load_selection_group",
    "set_wire_load_min_block_size",
    "set_voltage",
    "create_voltage_area",
    "set_level_shifter_strategy",
    "set_level_shifter_threshold",
    "current_design",
];

const TCL: [&str; 15] = [
    "source",
    "if",
    "else",
    "elseif",
    "for",
    "foreach",
    "foreach_in_collection",
    "while",
    "proc",
    "eval",
    "uplevel",
    "namespace",
    "expr",
    "unset",
    "lappend",
];

// The commands that are read as they are.
fn read_names() -> &'static [&'static str]
    ensures { map (λ name. name.now) result.now ≡ read_names }
{
    &READ
}

// The commands that are passed over as they are.
fn passed_names() -> &'static [&'static str]
    ensures { map (λ name. name.now) result.now ≡ passed_names }
{
    &PASSED
}

// The commands of Tcl that may hold others, or change what their words stand for.
fn tcl_names() -> &'static [&'static str]
    ensures { map (λ name. name.now) result.now ≡ tcl_names }
{
    &TCL
}

fn has_name(names: &[&str], name: &str) -> bool
    ensures { result ≡ list_any (λ one. bytes_eq name.now one.now) names.now }
{
    names.iter().any(|one| name == *one)
}

fn is_one_of(names: &[&str], name: &str) -> bool
    ensures { result ≡ is_one_of (map (λ one. one.now) names.now) name.now }
{
    has_name(names, name)
}

fn may_be_skipped(name: &str) -> bool
    ensures { result ≡ may_be_skipped name.now }
{
    !(name.is_empty()
        || is_one_of(read_names(), name)
        || is_one_of(passed_names(), name)
        || is_one_of(tcl_names(), name))
}

fn may_all(names: &[&str]) -> bool
    ensures { result ≡ list_all (λ name. may_be_skipped name.now) names.now }
{
    names.iter().all(|name| may_be_skipped(name))
}

// Whether each of the names may be passed over.
fn may_each_be_skipped(names: &[&str]) -> bool
    ensures { result ≡ list_all may_be_skipped (map (λ name. name.now) names.now) }
{
    may_all(names)
}

/// The parts of a list as names.
pub fn names_of(alloc: Global, parts: &[&str]) -> Result<Seq<Name>, AllocError>
    ensures { IfOk result (λ names. names ≡ map (λ part. part.now) parts.now) }
{
    let mut names = Seq::new(alloc);
    for part in parts {
        names.push(Name::new(alloc, part.as_bytes())?)?;
    }
    Ok(names)
}

/// The names that a list spells, if each of them may be passed over.
#[tactic(auto, unfolding(crate::specs::Skips::skips_of))]
pub fn skips_of(alloc: Global, text: &str) -> Result<Option<Seq<Name>>, AllocError>
    ensures { IfOk result (λ found. found ≡ skips_of text.now) }
{
    let parts = parts(alloc, text)?;
    if !may_each_be_skipped(&parts) {
        return Ok(None);
    }
    Ok(Some(names_of(alloc, &parts)?))
}
