//! The words of the subset, none of which is a name.
ghost use Rattle.std.specs.Prelude.{◌≡◌};
ghost use Rattle.std.specs.Str.{bytes_eq};
ghost use Rattle.verilog_words.specs.Words as spec;

use netlist_types::PrimKind;

/// A word of the subset.
#[derive(Clone, Copy, Debug, PartialEq, Eq)]
pub enum Word {
    Module,
    Endmodule,
    Input,
    Output,
    /// A direction where a netlist is read wide; else it is outside the subset.
    Inout,
    Wire,
    Supply0,
    Supply1,
    Assign,
    Gate(PrimKind),
    /// A word that begins a construct outside the subset.
    Unsupported,
}

fn is(name: &[u8], word: &str) -> bool
    ensures { result ≡ bytes_eq name.now word.now }
{
    name == word.as_bytes()
}

#[tactic(auto, unfolding(crate::specs::Words::module_word))]
fn module_word(name: &[u8]) -> Option<Word>
    ensures { result ≡ spec.module_word name.now }
{
    if is(name, "module") {
        Some(Word::Module)
    } else if is(name, "endmodule") {
        Some(Word::Endmodule)
    } else if is(name, "input") {
        Some(Word::Input)
    } else if is(name, "output") {
        Some(Word::Output)
    } else if is(name, "inout") {
        Some(Word::Inout)
    } else if is(name, "wire") {
        Some(Word::Wire)
    } else if is(name, "supply0") {
        Some(Word::Supply0)
    } else if is(name, "supply1") {
        Some(Word::Supply1)
    } else if is(name, "assign") {
        Some(Word::Assign)
    } else {
        None
    }
}

#[tactic(auto, unfolding(crate::specs::Words::gate_word))]
fn gate_word(name: &[u8]) -> Option<PrimKind>
    ensures { result ≡ spec.gate_word name.now }
{
    if is(name, "and") {
        Some(PrimKind::And)
    } else if is(name, "nand") {
        Some(PrimKind::Nand)
    } else if is(name, "or") {
        Some(PrimKind::Or)
    } else if is(name, "nor") {
        Some(PrimKind::Nor)
    } else if is(name, "xor") {
        Some(PrimKind::Xor)
    } else if is(name, "xnor") {
        Some(PrimKind::Xnor)
    } else if is(name, "buf") {
        Some(PrimKind::Buf)
    } else if is(name, "not") {
        Some(PrimKind::Not)
    } else {
        None
    }
}

#[tactic(auto, unfolding(crate::specs::Words::is_behaviour))]
fn is_behaviour(name: &[u8]) -> bool
    ensures { result ≡ spec.is_behaviour name.now }
{
    is(name, "always")
        || is(name, "initial")
        || is(name, "reg")
        || is(name, "integer")
        || is(name, "parameter")
        || is(name, "localparam")
        || is(name, "defparam")
        || is(name, "specify")
        || is(name, "function")
        || is(name, "task")
        || is(name, "generate")
        || is(name, "genvar")
}

#[tactic(auto, unfolding(crate::specs::Words::is_strength))]
fn is_strength(name: &[u8]) -> bool
    ensures { result ≡ spec.is_strength name.now }
{
    is(name, "tri")
        || is(name, "tri0")
        || is(name, "tri1")
        || is(name, "wand")
        || is(name, "wor")
        || is(name, "trireg")
        || is(name, "bufif0")
        || is(name, "bufif1")
        || is(name, "notif0")
        || is(name, "notif1")
        || is(name, "primitive")
}

/// The word that these bytes are, and `None` exactly where they are a name.
#[tactic(auto, unfolding(crate::specs::Words::word_of))]
pub fn word_of(name: &[u8]) -> Option<Word>
    ensures { result ≡ spec.word_of name.now }
{
    if let Some(word) = module_word(name) {
        return Some(word);
    }
    if let Some(kind) = gate_word(name) {
        return Some(Word::Gate(kind));
    }
    if is_behaviour(name) || is_strength(name) {
        return Some(Word::Unsupported);
    }
    None
}
