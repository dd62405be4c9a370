//! The commands by their names.
ghost use Rattle.std.specs.Prelude.{◌≡◌};
ghost use Rattle.sdc_text.specs.Kinds as spec;

use crate::forms::skips;
use crate::options::{PathCommand, is};
use run_options::ScriptForm;

/// A kind of command.
#[derive(Clone, Copy, PartialEq, Eq)]
pub enum CommandKind {
    /// It sets a variable.
    Set,
    Clock,
    Case,
    Path(PathCommand),
    /// It changes no exception, and its words are not valued.
    Passed,
    /// A timing analyser obeys it, no verdict speaks of what it does, and its words are not valued.
    Unjudged,
    /// It names the design.
    Scope,
    /// It delays outputs, or else inputs.
    Delay(bool),
    /// It is a case analysis of this value.
    Constant(bool),
    /// It says within which instance names are looked up.
    Instance,
    /// It says by what the parts of a name are parted.
    Separator,
    Generated,
}

#[tactic(auto, unfolding(crate::specs::Kinds::is_delay))]
fn is_delay(name: &[u8]) -> bool
    ensures { result ≡ spec.is_delay name.now }
{
    if is(name, "set_input_delay") {
        true
    } else if is(name, "set_output_delay") {
        true
    } else if is(name, "set_load") {
        true
    } else if is(name, "set_driving_cell") {
        true
    } else if is(name, "set_drive") {
        true
    } else if is(name, "set_input_transition") {
        true
    } else if is(name, "set_fanout_load") {
        true
    } else if is(name, "set_port_fanout_number") {
        true
    } else if is(name, "set_resistance") {
        true
    } else if is(name, "set_ideal_network") {
        true
    } else {
        false
    }
}

#[tactic(auto, unfolding(crate::specs::Kinds::is_clock))]
fn is_clock(name: &[u8]) -> bool
    ensures { result ≡ spec.is_clock name.now }
{
    if is(name, "set_clock_uncertainty") {
        true
    } else if is(name, "set_clock_latency") {
        true
    } else if is(name, "set_clock_transition") {
        true
    } else if is(name, "set_propagated_clock") {
        true
    } else if is(name, "set_clock_groups") {
        true
    } else if is(name, "set_clock_gating_check") {
        true
    } else if is(name, "set_ideal_latency") {
        true
    } else if is(name, "set_ideal_transition") {
        true
    } else if is(name, "set_data_check") {
        true
    } else if is(name, "set_min_pulse_width") {
        true
    } else if is(name, "set_disable_timing") {
        true
    } else if is(name, "set_timing_derate") {
        true
    } else {
        false
    }
}

#[tactic(auto, unfolding(crate::specs::Kinds::is_limit))]
fn is_limit(name: &[u8]) -> bool
    ensures { result ≡ spec.is_limit name.now }
{
    if is(name, "set_max_delay") {
        true
    } else if is(name, "set_min_delay") {
        true
    } else if is(name, "set_max_transition") {
        true
    } else if is(name, "set_max_fanout") {
        true
    } else if is(name, "set_max_capacitance") {
        true
    } else if is(name, "set_max_area") {
        true
    } else if is(name, "set_min_capacitance") {
        true
    } else if is(name, "set_max_dynamic_power") {
        true
    } else if is(name, "set_max_leakage_power") {
        true
    } else if is(name, "set_dont_touch") {
        true
    } else if is(name, "group_path") {
        true
    } else {
        false
    }
}

#[tactic(auto, unfolding(crate::specs::Kinds::is_setting))]
fn is_setting(name: &[u8]) -> bool
    ensures { result ≡ spec.is_setting name.now }
{
    if is(name, "set_units") {
        true
    } else if is(name, "set_operating_conditions") {
        true
    } else if is(name, "set_wire_load_model") {
        true
    } else if is(name, "set_wire_load_mode") {
        true
    } else if is(name, "set_wire_load_selection_group") {
        true
    } else if is(name, "set_wire_load_min_block_size") {
        true
    } else if is(name, "set_voltage") {
        true
    } else if is(name, "create_voltage_area") {
        true
    } else if is(name, "set_level_shifter_strategy") {
        true
    } else if is(name, "set_level_shifter_threshold") {
        true
    } else if is(name, "current_design") {
        true
    } else {
        false
    }
}

fn is_passed_over(name: &[u8]) -> bool
    ensures { result ≡ spec.is_passed_over name.now }
{
    is_delay(name) || (is_clock(name) || (is_limit(name) || is_setting(name)))
}

#[tactic(auto, unfolding(crate::specs::Kinds::narrow_kind))]
fn narrow_kind(name: &[u8]) -> Option<CommandKind>
    ensures { result ≡ spec.narrow_kind name.now }
{
    if is(name, "set") {
        Some(CommandKind::Set)
    } else if is(name, "create_clock") {
        Some(CommandKind::Clock)
    } else if is(name, "set_case_analysis") {
        Some(CommandKind::Case)
    } else if is(name, "set_false_path") {
        Some(CommandKind::Path(PathCommand::FalsePath))
    } else if is(name, "set_multicycle_path") {
        Some(CommandKind::Path(PathCommand::Multicycle))
    } else if is_passed_over(name) {
        Some(CommandKind::Passed)
    } else {
        None
    }
}

#[tactic(auto, unfolding(crate::specs::Kinds::is_unjudged))]
fn is_unjudged(name: &[u8]) -> bool
    ensures { result ≡ spec.is_unjudged name.now }
{
    if is(name, "set_clock_groups") {
        true
    } else if is(name, "set_disable_timing") {
        true
    } else if is(name, "set_max_delay") {
        true
    } else if is(name, "set_min_delay") {
        true
    } else {
        false
    }
}

#[tactic(auto, unfolding(crate::specs::Kinds::wide_kind))]
fn wide_kind(name: &[u8]) -> Option<CommandKind>
    ensures { result ≡ spec.wide_kind name.now }
{
    if is_unjudged(name) {
        Some(CommandKind::Unjudged)
    } else if is(name, "current_design") {
        Some(CommandKind::Scope)
    } else if is(name, "set_input_delay") {
        Some(CommandKind::Delay(false))
    } else if is(name, "set_output_delay") {
        Some(CommandKind::Delay(true))
    } else if is(name, "set_logic_zero") {
        Some(CommandKind::Constant(false))
    } else if is(name, "set_logic_one") {
        Some(CommandKind::Constant(true))
    } else if is(name, "current_instance") {
        Some(CommandKind::Instance)
    } else if is(name, "set_hierarchy_separator") {
        Some(CommandKind::Separator)
    } else if is(name, "create_generated_clock") {
        Some(CommandKind::Generated)
    } else {
        None
    }
}

fn skipped_kind(form: &ScriptForm, name: &[u8]) -> Option<CommandKind>
    ensures { result ≡ spec.skipped_kind form.now name.now }
{
    if skips(form, name) {
        Some(CommandKind::Unjudged)
    } else {
        None
    }
}

fn or_else(first: Option<CommandKind>, other: Option<CommandKind>) -> Option<CommandKind>
    ensures { result ≡ spec.or_else first other }
{
    match first {
        Some(kind) => Some(kind),
        None => other,
    }
}

/// The kind of command of this name, and `None` exactly where there is none.
#[tactic(auto, unfolding(crate::specs::Kinds::command_kind))]
pub fn command_kind(form: &ScriptForm, name: &[u8]) -> Option<CommandKind>
    ensures { result ≡ spec.command_kind form.now name.now }
{
    match form {
        ScriptForm::Narrow => narrow_kind(name),
        ScriptForm::Wide(_) => {
            or_else(
                wide_kind(name),
                or_else(narrow_kind(name), skipped_kind(form, name)),
            )
        }
    }
}
