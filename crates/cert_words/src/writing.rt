//! Words, written.
ghost use Rattle.std.specs.Prelude.{◌≡◌, ◌++◌, ◌∷◌, [], map, OnOk};
ghost use Rattle.std.specs.Fmt.{decimal};
ghost use Rattle.cert_words.specs.Words.{tailed};
ghost use Rattle.cert_words.specs.Numbers.{lit_word};

use proof_log::Lit;
use sdcv_base::push_decimal;
use std::alloc::{AllocError, Global};

/// Appends the word of a literal.
pub fn push_lit(alloc: Global, out: &mut Vec<u8>, lit: Lit) -> Result<(), AllocError>
    ensures { OnOk result (out.new.items ≡ out.old.items ++ lit_word lit) }
{
    if !lit.positive() {
        out.push(b'-')?;
    }
    push_decimal(alloc, out, u64::from(lit.var()))
}

/// Appends the words of literals, each with a space after it.
pub fn push_lits(alloc: Global, out: &mut Vec<u8>, lits: &[Lit]) -> Result<(), AllocError>
    ensures { OnOk result (out.new.items ≡ out.old.items ++ tailed (map lit_word lits.now)) }
{
    for lit in lits {
        push_lit(alloc, out, *lit)?;
        out.push(b' ')?;
    }
    Ok(())
}

/// Appends hints, each with a space after it.
pub fn push_hints(alloc: Global, out: &mut Vec<u8>, hints: &[u64]) -> Result<(), AllocError>
    ensures { OnOk result (out.new.items ≡ out.old.items ++ tailed (map decimal hints.now)) }
{
    for hint in hints {
        push_decimal(alloc, out, *hint)?;
        out.push(b' ')?;
    }
    Ok(())
}
