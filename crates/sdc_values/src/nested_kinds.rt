//! The commands that may stand in brackets, by their names, and the options of a word.
ghost use Rattle.std.specs.Prelude.{◌≡◌};
ghost use Rattle.std.specs.Str.{bytes_eq};
ghost use Rattle.sdc_values.specs.NestedKinds as spec;

use script_types::Class;
use texts::byte_at;

/// How nested commands are read.
#[derive(Clone, Copy, PartialEq, Eq)]
pub enum Nesting {
    Narrow,
    /// With some more commands that join lists, with lists of patterns within `get_` commands, and with an option of
    /// `all_inputs`.
    Wide,
}

/// A command that may stand in brackets.
#[derive(Clone, Copy, PartialEq, Eq)]
pub enum NestedKind {
    List,
    Get(Class),
    AllInputs,
    AllOutputs,
    AllRegisters,
    AllClocks,
}

fn is(text: &[u8], word: &str) -> bool
    ensures { result ≡ bytes_eq text.now word.now }
{
    text == word.as_bytes()
}

/// Whether nested commands are read in the wide way.
pub fn is_wide(nesting: Nesting) -> bool
    ensures { result ≡ spec.is_wide nesting }
{
    match nesting {
        Nesting::Narrow => false,
        Nesting::Wide => true,
    }
}

fn joins_too(name: &[u8]) -> bool
    ensures { result ≡ spec.joins_too name.now }
{
    is(name, "concat") || is(name, "add_to_collection")
}

/// Whether the words of the command of this name may be the patterns of a `get_` command in the wide way.
pub fn lists_texts(name: &[u8]) -> bool
    ensures { result ≡ spec.lists_texts name.now }
{
    is(name, "list") || is(name, "concat")
}

#[tactic(auto, unfolding(crate::specs::NestedKinds::narrow_kind))]
fn narrow_kind(name: &[u8]) -> Option<NestedKind>
    ensures { result ≡ spec.narrow_kind name.now }
{
    if is(name, "list") {
        Some(NestedKind::List)
    } else if is(name, "get_ports") {
        Some(NestedKind::Get(Class::Ports))
    } else if is(name, "get_cells") {
        Some(NestedKind::Get(Class::Cells))
    } else if is(name, "get_pins") {
        Some(NestedKind::Get(Class::Pins))
    } else if is(name, "get_nets") {
        Some(NestedKind::Get(Class::Nets))
    } else if is(name, "get_clocks") {
        Some(NestedKind::Get(Class::Clocks))
    } else if is(name, "all_inputs") {
        Some(NestedKind::AllInputs)
    } else if is(name, "all_outputs") {
        Some(NestedKind::AllOutputs)
    } else if is(name, "all_registers") {
        Some(NestedKind::AllRegisters)
    } else if is(name, "all_clocks") {
        Some(NestedKind::AllClocks)
    } else {
        None
    }
}

/// The command of this name, and `None` exactly where none may stand in brackets.
#[tactic(auto, unfolding(crate::specs::NestedKinds::nested_kind))]
pub fn nested_kind(nesting: Nesting, name: &[u8]) -> Option<NestedKind>
    ensures { result ≡ spec.nested_kind nesting name.now }
{
    if is_wide(nesting) && joins_too(name) {
        Some(NestedKind::List)
    } else {
        narrow_kind(name)
    }
}

/// Whether a text is the option of `all_inputs` that leaves out the ports of clocks.
pub fn is_no_clocks(text: &[u8]) -> bool
    ensures { result ≡ spec.is_no_clocks text.now }
{
    is(text, "-no_clocks")
}

/// Whether this is the name of the command that takes the second of two lists out of the first.
pub fn is_removal(name: &[u8]) -> bool
    ensures { result ≡ spec.is_removal name.now }
{
    is(name, "remove_from_collection")
}

/// Whether a text is an option where options may stand.
pub fn is_option(text: &[u8]) -> bool
    ensures { result ≡ spec.is_option text.now }
{
    byte_at(text, 0) == b'-' && !byte_at(text, 1).is_ascii_digit()
}

/// Whether a text is the option by which a pattern matches below any part of a name.
pub fn is_hier(text: &[u8]) -> bool
    ensures { result ≡ spec.is_hier text.now }
{
    is(text, "-hierarchical") || is(text, "-hier")
}

/// Whether a text is the option that changes nothing.
pub fn is_quiet(text: &[u8]) -> bool
    ensures { result ≡ spec.is_quiet text.now }
{
    is(text, "-quiet")
}
