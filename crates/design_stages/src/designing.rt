//! The stages from texts that were read to the pairs of their design.
ghost use Rattle.std.specs.Prelude.{◌≡◌, ◌≤◌, IfOk};
ghost use Rattle.netlist_types.specs.Lawful.{IsLawful};
ghost use Rattle.cell_types.specs.Libraries.{IsLawful as IsLawfulLibrary};
ghost use Rattle.exception_expand.specs.Selections.{HasMultipliers};
ghost use Rattle.run_options.specs.Judging.{CanJudge};
ghost use Rattle.run_options.specs.declared.netlists.NetlistForm.TheVariants.{Wide};
ghost use Rattle.link_defs.specs.Cuts.{IsLawfulCut};
ghost use Rattle.linked_types.specs.Usable.{IsUsable};
ghost use Rattle.fault_lines.specs.Designs.{link_line, expand_line};
ghost use Rattle.design_stages.specs.Stages.{Finds, Staged};
ghost use Rattle.design_stages.specs.Below.{cut_below};
ghost use Rattle.design_stages.specs.Designs.{HasCuts, HasInputs, HasSettings, Links, Selects, Settles, SettlesIn, LinksTo, LinksIn, Designs, DesignsIn};
ghost use Rattle.design_stages.specs.Designs.{AreLawful, CanBeJudged, asked_clock, options_of};

use crate::designs::{Designed, ReadTexts, Settled};
use crate::readers::is_wide;
use crate::refusals::Refusal;
use crate::tellings::{asked_clock, free_count, is_clock_asked, noticed, with_netlist};
use cell_types::Library;
use cut_source::cut;
use exception_expand::expand;
use fault_lines::{expand_line, link_line};
use link_defs::{CutItem, CutSource};
use net_link::{LinkOptions, Linked, PortName, link, top_inputs};
use netlist_types::Source;
use run_options::{Cutting, Judging, NetlistForm, Reset};
use script_types::Script;
use sdc_settings::{Settings, settings};
use sdcv_base::{Name, Seq, Setting};
use selected_types::Selected;
use std::alloc::Global;

/// A source without the instances that are cut out of it, and these.
#[derive(Clone, Copy)]
struct Below<'a> {
    source: &'a Source,
    items: &'a Seq<CutItem>,
}

/// Links the netlist with its cells, as the constraints and the reset set its inputs, and selects the pairs that the constraints
/// make exceptions of, each with a claim that is judged in this manner. What is told of the netlist and the constraints beside them
/// goes with them.
pub fn designed(
    alloc: Global,
    texts: &ReadTexts,
    reset: Reset,
    judging: Judging,
) -> Result<Designed, Refusal>
    requires lawful { AreLawful texts.now }
    requires reset { reset.len ≤ 64 }
    requires judging { CanJudge judging }
    ensures found { Finds (Designs texts.now reset judging) result }
    ensures judged { IfOk result CanBeJudged }
{
    match &texts.forms.netlist {
        NetlistForm::Narrow => {
            let items = Seq::new(alloc);
            let below = Below {
                source: &texts.source,
                items: &items,
            };
            designed_in(alloc, texts, &below, reset, judging)
        }
        NetlistForm::Wide(cutting) => {
            let cut = cut_of(alloc, texts, cutting)?;
            let below = Below {
                source: &cut.source,
                items: &cut.items,
            };
            designed_in(alloc, texts, &below, reset, judging)
        }
    }
}

/// The same of what is left of the netlist.
fn designed_in(
    alloc: Global,
    texts: &ReadTexts,
    below: &Below,
    reset: Reset,
    judging: Judging,
) -> Result<Designed, Refusal>
    requires lawful { AreLawful texts.now }
    requires below { IsLawfulCut (cut_below below.now) }
    requires reset { reset.len ≤ 64 }
    requires judging { CanJudge judging }
    ensures found { Finds (DesignsIn texts.now (cut_below below.now) reset judging) result }
    ensures judged { IfOk result CanBeJudged }
{
    let linked = linked_in(alloc, texts, below, reset)?;
    let selected = selected(alloc, &linked, &texts.script, judging)?;
    let notices = noticed(alloc, texts, below.source, judging, &selected)?;
    let notices = with_netlist(alloc, &texts.forms.netlist, &linked.names, notices)?;
    let free = free_count(&texts.forms.netlist, &linked.names);
    Ok(Designed {
        linked,
        selected,
        notices,
        free,
    })
}

/// Links the netlist with its cells, as the constraints and the reset set its inputs.
pub fn linked(alloc: Global, texts: &ReadTexts, reset: Reset) -> Result<Linked, Refusal>
    requires lawful { AreLawful texts.now }
    requires reset { reset.len ≤ 64 }
    ensures found { Finds (LinksTo texts.now reset) result }
    ensures usable { IfOk result IsUsable }
{
    match &texts.forms.netlist {
        NetlistForm::Narrow => {
            let items = Seq::new(alloc);
            let below = Below {
                source: &texts.source,
                items: &items,
            };
            linked_in(alloc, texts, &below, reset)
        }
        NetlistForm::Wide(cutting) => {
            let cut = cut_of(alloc, texts, cutting)?;
            let below = Below {
                source: &cut.source,
                items: &cut.items,
            };
            linked_in(alloc, texts, &below, reset)
        }
    }
}

/// Links what is left of the netlist.
fn linked_in(
    alloc: Global,
    texts: &ReadTexts,
    below: &Below,
    reset: Reset,
) -> Result<Linked, Refusal>
    requires lawful { AreLawful texts.now }
    requires below { IsLawfulCut (cut_below below.now) }
    requires reset { reset.len ≤ 64 }
    ensures found { Finds (LinksIn texts.now (cut_below below.now) reset) result }
    ensures usable { IfOk result IsUsable }
{
    let inputs = inputs(alloc, below.source)?;
    let settings = settings_of(alloc, texts, &inputs, &reset.ports)?;
    let options = options_of(&texts.forms.netlist, settings, reset);
    linked_under(alloc, below, &texts.library, &options)
}

/// The input bits of the top module, and what the constraints set of them, where reset holds these ports.
pub fn settled(alloc: Global, texts: &ReadTexts, resets: &Seq<Setting>) -> Result<Settled, Refusal>
    requires { AreLawful texts.now }
    ensures { Finds (Settles texts.now resets.now) result }
{
    match &texts.forms.netlist {
        NetlistForm::Narrow => settled_in(alloc, texts, &texts.source, resets),
        NetlistForm::Wide(cutting) => {
            let cut = cut_of(alloc, texts, cutting)?;
            settled_in(alloc, texts, &cut.source, resets)
        }
    }
}

/// The same of what is left of the netlist.
fn settled_in(
    alloc: Global,
    texts: &ReadTexts,
    source: &Source,
    resets: &Seq<Setting>,
) -> Result<Settled, Refusal>
    requires { IsLawful source.now }
    ensures { Finds (SettlesIn texts.now source.now resets.now) result }
{
    let inputs = inputs(alloc, source)?;
    let settings = settings_of(alloc, texts, &inputs, resets)?;
    Ok(Settled { inputs, settings })
}

/// The netlist below its top module without what is cut out of it.
fn cut_of(alloc: Global, texts: &ReadTexts, cutting: &Cutting) -> Result<CutSource, Refusal>
    requires { AreLawful texts.now }
    ensures found { Finds (Staged (HasCuts (Wide cutting.now) texts.now.source texts.now.library) link_line) result }
    ensures lawful { IfOk result IsLawfulCut }
{
    match cut(alloc, &texts.source, &texts.library, cutting) {
        Ok(cut) => Ok(cut),
        Err(fault) => Err(Refusal::Line(link_line(alloc, &fault)?)),
    }
}

/// What is set from outside.
fn options_of(form: &NetlistForm, settings: Settings, reset: Reset) -> LinkOptions
    ensures { result ≡ options_of form.now settings reset }
{
    let Settings { clock, fixed } = settings;
    let Reset { ports, len } = reset;
    LinkOptions {
        clock,
        fixed,
        resets: ports,
        reset_len: len,
        wide: is_wide(form),
        cut_clocks: is_clock_asked(form),
    }
}

/// The input bits of the top module.
fn inputs(alloc: Global, source: &Source) -> Result<Seq<PortName>, Refusal>
    requires { IsLawful source.now }
    ensures { Finds (Staged (HasInputs source.now) link_line) result }
{
    match top_inputs(alloc, source) {
        Ok(inputs) => Ok(inputs),
        Err(fault) => Err(Refusal::Line(link_line(alloc, &fault)?)),
    }
}

/// The clock, where one is asked for the one of its name, and the fixed inputs.
fn settings_of(
    alloc: Global,
    texts: &ReadTexts,
    inputs: &Seq<PortName>,
    resets: &Seq<Setting>,
) -> Result<Settings, Refusal>
    ensures { Finds (Staged (HasSettings texts.now.script inputs.now resets.now (asked_clock texts.now.forms.netlist)) expand_line) result }
{
    let clock = asked_clock(alloc, &texts.forms.netlist)?;
    settings_by(alloc, &texts.script, inputs, resets, &clock)
}

/// The same, where this clock is asked for.
fn settings_by(
    alloc: Global,
    script: &Script,
    inputs: &Seq<PortName>,
    resets: &Seq<Setting>,
    clock: &Option<Name>,
) -> Result<Settings, Refusal>
    ensures { Finds (Staged (HasSettings script.now inputs.now resets.now clock.now) expand_line) result }
{
    match settings(alloc, script, inputs, resets, clock) {
        Ok(settings) => Ok(settings),
        Err(fault) => Err(Refusal::Line(expand_line(alloc, &fault)?)),
    }
}

/// The design with its names, with these inputs set.
fn linked_under(
    alloc: Global,
    below: &Below,
    library: &Library,
    options: &LinkOptions,
) -> Result<Linked, Refusal>
    requires source { IsLawfulCut (cut_below below.now) }
    requires library { IsLawfulLibrary library.now.cells }
    requires resets { options.now.reset_len ≤ 64 }
    ensures found { Finds (Staged (Links (cut_below below.now) library.now options.now) link_line) result }
    ensures usable { IfOk result IsUsable }
{
    match link(alloc, below.source, below.items, library, options) {
        Ok(linked) => Ok(linked),
        Err(fault) => Err(Refusal::Line(link_line(alloc, &fault)?)),
    }
}

/// The selected pairs.
fn selected(
    alloc: Global,
    linked: &Linked,
    script: &Script,
    judging: Judging,
) -> Result<Selected, Refusal>
    requires linked { IsUsable linked.now }
    requires script { HasMultipliers script.now }
    requires judging { CanJudge judging }
    ensures { Finds (Staged (Selects linked.now script.now judging) expand_line) result }
{
    match expand(alloc, linked, script, judging) {
        Ok(selected) => Ok(selected),
        Err(fault) => Err(Refusal::Line(expand_line(alloc, &fault)?)),
    }
}
