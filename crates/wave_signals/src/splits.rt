//! Names in their parts.
ghost use Rattle.std.specs.Prelude.{◌≡◌, IfOk, map};
ghost use Rattle.wave_signals.specs.Signals.{full_name};
ghost use Rattle.wave_signals.specs.Splits.{IsScoped, bit_of};

use crate::bits::{BitKind, NamedBit};
use crate::indices::{Indexed, index_of};
use crate::signals::Stem;
use sdcv_base::{Name, Seq};
use std::alloc::{AllocError, Global};

/// A bit with its name in parts.
#[derive(Drop)]
pub struct SplitBit {
    pub kind: BitKind,
    pub stem: Stem,
    pub index: Option<u64>,
    pub values: Seq<bool>,
}

/// The scopes that a name begins with, and where its last part begins.
#[derive(Drop)]
pub struct Scoped {
    pub scopes: Seq<Name>,
    pub rest: usize,
}

fn scopes_of(alloc: Global, name: &[u8]) -> Result<Scoped, AllocError>
    ensures { IfOk result (IsScoped name.now) }
{
    let mut scopes = Seq::new(alloc);
    let mut rest = 0;
    for place in 0..name.len() {
        if name[place] == b'/' {
            scopes.push(Name::new(alloc, &name[rest..place])?)?;
            rest = place + 1;
        }
    }
    Ok(Scoped { scopes, rest })
}

/// The bit with its name cut at each `/`, and at the index of its last part.
fn split_bit(alloc: Global, bit: NamedBit) -> Result<SplitBit, AllocError>
    ensures { IfOk result (λ split. bit_of split ≡ bit) }
{
    let NamedBit { kind, name, values } = bit;
    let name = name.as_bytes();
    let Scoped { scopes, rest } = scopes_of(alloc, name)?;
    let part = &name[rest..];
    let Indexed {
        before,
        index,
        after,
    } = index_of(alloc, part)?;
    let stem = Stem {
        scopes,
        front: Name::new(alloc, &part[..before])?,
        back: Name::new(alloc, &part[after..])?,
    };
    Ok(SplitBit {
        kind,
        stem,
        index,
        values,
    })
}

/// These bits, each with its name in parts.
pub(crate) fn split_bits(alloc: Global, bits: Vec<NamedBit>) -> Result<Vec<SplitBit>, AllocError>
    ensures { IfOk result (λ split. map bit_of split.items ≡ bits.items) }
{
    let mut split = Vec::new(alloc);
    for bit in bits {
        split.push(split_bit(alloc, bit)?)?;
    }
    Ok(split)
}
