//! The groups and attributes of a cell that count, by their names in a Liberty text.
ghost use Rattle.std.specs.Prelude.{◌≡◌};
ghost use Rattle.std.specs.Str.{bytes_eq};
ghost use Rattle.lib_words.specs.Kinds as spec;

/// A kind of group that counts where it stands directly in a cell.
#[derive(Clone, Copy, Debug, PartialEq, Eq)]
pub enum PartKind {
    Pin,
    /// A power pin.
    PgPin,
    Ff,
    FfBank,
    Latch,
    LatchBank,
    Statetable,
    Bus,
    Bundle,
    Memory,
}

/// A simple attribute that counts where it stands directly in a cell or in one of its parts.
#[derive(Clone, Copy, Debug, PartialEq, Eq)]
pub enum AttributeKind {
    Direction,
    Function,
    ThreeState,
    ClockedOn,
    ClockedOnAlso,
    NextState,
    Clear,
    Preset,
    ClearPresetVar1,
    ClockGatingIntegratedCell,
    ClockGateClockPin,
    ClockGateEnablePin,
    ClockGateTestPin,
    ClockGateOutPin,
}

pub fn is(name: &[u8], word: &str) -> bool
    ensures { result ≡ bytes_eq name.now word.now }
{
    name == word.as_bytes()
}

/// The kind of group of this name, and `None` exactly where such groups are passed over.
#[tactic(auto, unfolding(crate::specs::Kinds::part_kind))]
pub fn part_kind(name: &[u8]) -> Option<PartKind>
    ensures { result ≡ spec.part_kind name.now }
{
    if is(name, "pin") {
        Some(PartKind::Pin)
    } else if is(name, "pg_pin") {
        Some(PartKind::PgPin)
    } else if is(name, "ff") {
        Some(PartKind::Ff)
    } else if is(name, "ff_bank") {
        Some(PartKind::FfBank)
    } else if is(name, "latch") {
        Some(PartKind::Latch)
    } else if is(name, "latch_bank") {
        Some(PartKind::LatchBank)
    } else if is(name, "statetable") {
        Some(PartKind::Statetable)
    } else if is(name, "bus") {
        Some(PartKind::Bus)
    } else if is(name, "bundle") {
        Some(PartKind::Bundle)
    } else if is(name, "memory") {
        Some(PartKind::Memory)
    } else {
        None
    }
}

/// The attribute of this name, and `None` exactly where such attributes are passed over.
#[tactic(auto, unfolding(crate::specs::Kinds::attribute_kind))]
pub fn attribute_kind(name: &[u8]) -> Option<AttributeKind>
    ensures { result ≡ spec.attribute_kind name.now }
{
    if is(name, "direction") {
        Some(AttributeKind::Direction)
    } else if is(name, "function") {
        Some(AttributeKind::Function)
    } else if is(name, "three_state") {
        Some(AttributeKind::ThreeState)
    } else if is(name, "clocked_on") {
        Some(AttributeKind::ClockedOn)
    } else if is(name, "clocked_on_also") {
        Some(AttributeKind::ClockedOnAlso)
    } else if is(name, "next_state") {
        Some(AttributeKind::NextState)
    } else if is(name, "clear") {
        Some(AttributeKind::Clear)
    } else if is(name, "preset") {
        Some(AttributeKind::Preset)
    } else if is(name, "clear_preset_var1") {
        Some(AttributeKind::ClearPresetVar1)
    } else if is(name, "clock_gating_integrated_cell") {
        Some(AttributeKind::ClockGatingIntegratedCell)
    } else if is(name, "clock_gate_clock_pin") {
        Some(AttributeKind::ClockGateClockPin)
    } else if is(name, "clock_gate_enable_pin") {
        Some(AttributeKind::ClockGateEnablePin)
    } else if is(name, "clock_gate_test_pin") {
        Some(AttributeKind::ClockGateTestPin)
    } else if is(name, "clock_gate_out_pin") {
        Some(AttributeKind::ClockGateOutPin)
    } else {
        None
    }
}
