//! The text of a wave.
ghost use Rattle.std.specs.Prelude.{◌≡◌, IfOk};
ghost use Rattle.vcd_text.specs.Waves as waves;

use crate::changes::push_cycles;
use crate::declarations::push_declarations;
use crate::lines::{begin_of, push_stamp};
use crate::waves::Wave;
use std::alloc::{AllocError, Global};

/// The text of a wave as a four-state value change dump. A cycle is ten units of time. The scope `sdcv_view` has the clock, which is
/// drawn, and the marks; the scope of the top module has the signals. Values are those of settled cycles: no glitch is drawn.
/// No date stands in it, so that it depends on the wave alone. `AllocError` comes also where a time is not below 2^64.
pub fn vcd_text(alloc: Global, wave: &Wave) -> Result<Vec<u8>, AllocError>
    ensures { IfOk result (λ text. text.items ≡ waves.vcd_text wave.now) }
{
    let mut text = Vec::new(alloc);
    push_declarations(alloc, &mut text, wave)?;
    push_cycles(alloc, &mut text, wave)?;
    push_stamp(alloc, &mut text, begin_of(wave.cycles)?)?;
    Ok(text)
}
