//! Scopes, opened and left.
ghost use Rattle.std.specs.Prelude.{◌≡◌, ◌++◌, ◌≤◌, length, OnOk};
ghost use Rattle.vcd_text.specs.Scopes as spec;

use crate::lines::{push_line, push_word};
use sdcv_base::Name;
use std::alloc::AllocError;

/// Opens a scope.
pub(crate) fn push_scope(text: &mut Vec<u8>, name: &[u8]) -> Result<(), AllocError>
    ensures { OnOk result (text.new.items ≡ text.old.items ++ spec.scope_line name.now) }
{
    text.extend_from_slice(b"$scope module ")?;
    push_word(text, name)?;
    push_line(text, b" $end")
}

/// Leaves a scope.
pub(crate) fn push_upscope(text: &mut Vec<u8>) -> Result<(), AllocError>
    ensures { OnOk result (text.new.items ≡ text.old.items ++ spec.upscope_line) }
{
    push_line(text, b"$upscope $end")
}

/// Leaves all these scopes.
pub(crate) fn push_leave(text: &mut Vec<u8>, scopes: &[Name]) -> Result<(), AllocError>
    ensures { OnOk result (text.new.items ≡ text.old.items ++ spec.leave scopes.now) }
{
    for _scope in scopes {
        push_upscope(text)?;
    }
    Ok(())
}

fn push_enter(text: &mut Vec<u8>, names: &[Name]) -> Result<(), AllocError>
    ensures { OnOk result (text.new.items ≡ text.old.items ++ spec.enter names.now) }
{
    for name in names {
        push_scope(text, name.as_bytes())?;
    }
    Ok(())
}

/// How many scopes two lists have in common at the front.
fn common(from: &[Name], to: &[Name]) -> usize
    ensures is { result ≡ spec.common from.now to.now }
    ensures from { result ≤ length from.now }
    ensures to { result ≤ length to.now }
{
    let mut count = 0;
    while count < from.len() && count < to.len() {
        if from[count] != to[count] {
            return count;
        }
        count += 1;
    }
    count
}

/// Goes out of scopes and into others; those that they have in common at the front stay open.
pub(crate) fn push_moves(text: &mut Vec<u8>, from: &[Name], to: &[Name]) -> Result<(), AllocError>
    ensures { OnOk result (text.new.items ≡ text.old.items ++ spec.moves from.now to.now) }
{
    let kept = common(from, to);
    push_leave(text, &from[kept..])?;
    push_enter(text, &to[kept..])
}
