//! What is known of a script before its pairs are judged.
ghost use Rattle.std.specs.Prelude.{◌≡◌, IfOk};
ghost use Rattle.netlist_types.specs.Lawful.{IsLawful};
ghost use Rattle.cell_types.specs.Libraries.{IsLawful as IsLawfulLibrary};
ghost use Rattle.run_options.specs.Judging.{CanJudge};
ghost use Rattle.sdcv_words.specs.Ranges.{AreOptionsInRange};
ghost use Rattle.design_stages.specs.Designs.{CanBeJudged};
ghost use Rattle.design_stages.specs.Stages.{Finds};
ghost use Rattle.sdcv_top.specs.Mendables.{IsMendable};

use cell_types::Library;
use design_stages::{Designed, ReadTexts, Refusal, Settled, constraints, designed, settled};
use netlist_types::Source;
use run_options::{Forms, Judging, Reset};
use script_types::Script;
use sdcv_base::{Seq, Setting};
use sdcv_words::Options;
use std::alloc::{AllocError, Global};

/// A text of constraints and the script that it is, how texts are read, how claims are judged and how runs begin, what the script sets, and the
/// pairs that it selects.
#[derive(Drop)]
pub struct Mendable {
    pub text: Seq<u8>,
    pub script: Script,
    pub forms: Forms,
    pub judging: Judging,
    pub reset: Reset,
    pub settled: Settled,
    pub designed: Designed,
}

/// The script that the text of constraints is, with what it sets and selects in a netlist.
pub fn mendable_of(
    alloc: Global,
    source: Source,
    library: Library,
    options: Options,
    text: Vec<u8>,
) -> Result<Mendable, Refusal>
    requires source { IsLawful source }
    requires library { IsLawfulLibrary library.cells }
    requires options { AreOptionsInRange options }
    ensures found { Finds (IsMendable source library options text.items) result }
    ensures judged { IfOk result (λ m. CanBeJudged m.designed) }
    ensures judging { IfOk result (λ m. CanJudge m.judging) }
{
    let Options {
        judging,
        forms,
        reset,
    } = options;
    let script = constraints(alloc, &text, &forms.script)?;
    let texts = ReadTexts {
        source,
        library,
        script,
        forms,
    };
    let settled = settled(alloc, &texts, &reset.ports)?;
    let held = copied(alloc, &reset)?;
    let designed = designed(alloc, &texts, held, judging)?;
    let ReadTexts { script, forms, .. } = texts;
    Ok(Mendable {
        text: Seq::from_vec(text),
        script,
        forms,
        judging,
        reset,
        settled,
        designed,
    })
}

// An equal reset.
fn copied(alloc: Global, reset: &Reset) -> Result<Reset, AllocError>
    ensures { IfOk result (λ copy. copy ≡ reset.now) }
{
    let mut ports = Seq::new(alloc);
    for port in reset.ports.as_slice() {
        ports.push(Setting {
            name: port.name.copy(alloc)?,
            value: port.value,
        })?;
    }
    Ok(Reset {
        ports,
        len: reset.len,
    })
}
