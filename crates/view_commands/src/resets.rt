//! The reset that words give.
ghost use Rattle.std.specs.Prelude.{◌≡◌, ◌≤◌, IfOk, Some};
ghost use Rattle.std.specs.Option.{option_map};
ghost use Rattle.sdcv_words.specs.Options.{resets_of};
ghost use Rattle.view_commands.specs.Resets as spec;

use crate::stops::Stop;
use crate::words::ResetWords;
use run_options::Reset;
use sdcv_base::{Seq, Setting, read_decimal};
use sdcv_words::settings_of;
use std::alloc::Global;

fn ports_of(alloc: Global, list: Option<&str>) -> Result<Seq<Setting>, Stop>
    ensures { IfOk result (λ ports. resets_of (option_map (λ t. t.now) list.entry) ≡ Some ports) }
{
    let Some(text) = list else {
        return Ok(Seq::new(alloc));
    };
    match settings_of(alloc, text)? {
        Some(ports) => Ok(ports),
        None => Err(Stop::Words(
            "--reset takes PORT=0 or PORT=1, parted by commas, each port once",
        )),
    }
}

fn cycles_of(words: &ResetWords<'_>) -> Result<u64, Stop>
    ensures { IfOk result (spec.AreCycles words.now) }
{
    let Some(digits) = words.cycles else {
        return Ok(if words.ports.is_some() { 1 } else { 0 });
    };
    match read_decimal(digits.as_bytes(), 64) {
        Some(cycles) => Ok(cycles),
        None => Err(Stop::Words(
            "--reset-cycles takes a number from 0 to 64, of digits alone and at most 20",
        )),
    }
}

/// The reset of these words: one cycle where ports are listed and no number is given, and else none.
pub fn reset_of(alloc: Global, words: &ResetWords<'_>) -> Result<Reset, Stop>
    ensures reset { IfOk result (spec.IsReset words.now) }
    ensures few { IfOk result (λ reset. reset.len ≤ 64) }
{
    let ports = ports_of(alloc, words.ports)?;
    let cycles = cycles_of(words)?;
    Ok(Reset {
        ports,
        len: cycles.min(64) as usize,
    })
}
