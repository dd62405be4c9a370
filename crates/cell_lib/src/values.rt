//! What the attributes of a group say.
ghost use Rattle.std.specs.Prelude.{◌≡◌, IfOk};
ghost use Rattle.std.specs.Option.{option_copied};
ghost use Rattle.cell_lib.specs.Values as spec;

use lib_func::{Expr, read_function};
use lib_words::{Attribute, AttributeKind, Value};
use std::alloc::{AllocError, Global};

/// The value of the last attribute of this kind.
#[tactic(auto, unfolding(crate::specs::Values::value_of))]
pub fn value_of(attributes: &[Attribute], kind: AttributeKind) -> Option<&Value>
    ensures { option_copied result ≡ spec.value_of kind attributes.now }
{
    attributes
        .iter()
        .rev()
        .find(|a| a.kind == kind)
        .map(|a| &a.value)
}

/// Whether the value is given as this word.
#[tactic(auto, unfolding(crate::specs::Values::says))]
pub fn says(attributes: &[Attribute], kind: AttributeKind, word: &str) -> bool
    ensures { result ≡ spec.says kind word.now attributes.now }
{
    match value_of(attributes, kind) {
        Some(value) => value.text.as_bytes() == word.as_bytes(),
        None => false,
    }
}

/// The expression that the value is: one that is no function, or is too deep, counts as absent.
#[tactic(auto, unfolding(crate::specs::Values::expr_of))]
pub fn expr_of(
    alloc: Global,
    attributes: &[Attribute],
    kind: AttributeKind,
) -> Result<Option<Expr>, AllocError>
    ensures { IfOk result (λ e. e ≡ spec.expr_of kind attributes.now) }
{
    match value_of(attributes, kind) {
        Some(value) => read_function(alloc, value.text.as_bytes()),
        None => Ok(None),
    }
}
