//! What a wave shows.
ghost use Rattle.std.specs.Prelude.{◌≡◌, ◌<◌, IfOk};
ghost use Rattle.vcd_text.specs.Marks as marks;

use sdcv_base::{Name, Seq};
use std::alloc::{AllocError, Global};
use wave_signals::{BitKind, Signal, Span, Stem};

/// Signals of a design over some cycles of its clock, below the name of its top module; beside them marks, which are signals of no
/// design.
#[derive(Drop)]
pub struct Wave {
    pub clock: Name,
    pub top: Name,
    pub marks: Seq<Signal>,
    pub signals: Seq<Signal>,
    pub cycles: usize,
}

/// A wire of this name that is 1 in one of so many cycles, from 0, and else 0.
pub fn mark(alloc: Global, name: &[u8], cycle: usize, cycles: usize) -> Result<Signal, AllocError>
    requires { cycle < cycles }
    ensures { IfOk result (λ signal. signal ≡ marks.mark name.now cycle cycles) }
{
    let mut values = Seq::filled(alloc, false, cycles)?;
    values.put(cycle, true);
    Ok(Signal {
        kind: BitKind::Wire,
        stem: Stem {
            scopes: Seq::new(alloc),
            front: Name::new(alloc, name)?,
            back: Name::new(alloc, &[])?,
        },
        span: Span::Whole,
        values: Seq::one(alloc, values)?,
    })
}
