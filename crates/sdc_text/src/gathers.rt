//! What is gathered word by word.
ghost use Rattle.std.specs.Prelude.{◌≡◌, Result};
ghost use Rattle.texts.specs.Rules.{Gives};
ghost use Rattle.sdc_values.specs.Told.{Fails};
ghost use Rattle.sdc_values.specs.declared.values.Said.{Said as TheSaid};
ghost use Rattle.script_types.specs.declared.faults.SdcFault.{SdcFault as TheFault};
ghost use Rattle.sdcv_base.specs.Steps.{after_all};

use sdc_values::{Said, SdcFault};
use std::alloc::Global;

/// What is gathered from the words of a command.
pub trait Gather: Drop {
    /// What a word adds to what was gathered before it.
    ghost adds: { Self → TheSaid → Result Self TheFault };

    fn add(&mut self, alloc: Global, word: &Said<'_>) -> Result<(), SdcFault>
        ensures { Gives Fails (λ _. self.new) result (adds self.old word.now) };
}

/// Gathers all these words.
pub fn take_all<G: Gather>(alloc: Global, words: &[Said<'_>], found: &mut G) -> Result<(), SdcFault>
    ensures { Gives Fails (λ _. found.new) result (after_all G.adds found.old words.now) }
{
    for word in words {
        found.add(alloc, word)?;
    }
    Ok(())
}
