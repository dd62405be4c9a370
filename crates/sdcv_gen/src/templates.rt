//! Lines with a place for the number of a block.
ghost use Rattle.std.specs.Prelude.{◌≡◌, ◌++◌, IfOk, OnOk, string_bytes};
ghost use Rattle.sdcv_gen.specs.Texts.{suffix, filled, filled_line};

use std::alloc::{AllocError, Global};

/// What stands at the end of each name of a block.
pub(crate) fn suffix(alloc: Global, number: usize) -> Result<String, AllocError>
    ensures { IfOk result (λ text. string_bytes text ≡ suffix number) }
{
    format!(in alloc; "_{number}")
}

/// Appends a template, with the suffix in the place of each `#`.
#[tactic(auto, unfolding(crate::specs::Texts::filled))]
pub(crate) fn push_filled(out: &mut Vec<u8>, suffix: &str, template: &str) -> Result<(), AllocError>
    ensures { OnOk result (out.new.items ≡ out.old.items ++ filled suffix.now template.now) }
{
    for byte in template.as_bytes() {
        if *byte == b'#' {
            out.extend_from_slice(suffix.as_bytes())?;
        } else {
            out.push(*byte)?;
        }
    }
    Ok(())
}

/// Appends a line of a template.
#[tactic(auto, unfolding(crate::specs::Texts::filled_line))]
pub(crate) fn push_line(out: &mut Vec<u8>, suffix: &str, template: &str) -> Result<(), AllocError>
    ensures { OnOk result (out.new.items ≡ out.old.items ++ filled_line suffix.now template.now) }
{
    push_filled(out, suffix, template)?;
    out.push(b'\n')?;
    Ok(())
}
