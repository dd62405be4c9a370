//! The stages that read a text.
ghost use Rattle.std.specs.Prelude.{◌≡◌, IfOk};
ghost use Rattle.netlist_types.specs.Lawful.{IsLawful};
ghost use Rattle.cell_types.specs.Libraries.{IsLawful as IsLawfulLibrary};
ghost use Rattle.exception_expand.specs.Selections.{HasMultipliers};
ghost use Rattle.sdcv_words.specs.Commands.{seen_texts};
ghost use Rattle.design_stages.specs.Designs.{AreLawful};
ghost use Rattle.sdcv_top.specs.Reads.{text_of};
ghost use Rattle.sdcv_top.specs.Texts.{Netlist, Cells, Constraints, Itself, Unless};
ghost use Rattle.sdcv_top.specs.Plans.{StopCounts, ReadFinds, CellsFind, TextsFind, items_of};

use crate::plans::Stop;
use crate::reads::{Answer, LONGEST, read};
use cell_types::{Library, builtin};
use design_stages::{
    ReadTexts, cells as cells_of, constraints as constraints_of, netlist as netlist_of,
};
use fault_lines::{Origin, too_long_line};
use netlist_types::Source;
use run_options::{Forms, NetlistForm, ScriptForm};
use script_types::Script;
use sdcv_base::Host;
use sdcv_words::Texts;
use std::alloc::Global;

/// Reads a file of at most `limit` bytes, and refuses a longer one.
pub fn text<H: Host>(
    alloc: Global,
    host: &mut H,
    name: &str,
    limit: usize,
    from: Origin,
) -> Result<Vec<u8>, Stop>
    ensures found { ReadFinds (Unless from Itself) (record { name = name.now; limit = limit }) (H.files host.old) (H.asked host.old)
        (H.asked host.new) (items_of result) }
    ensures count { StopCounts (H.faults host.old) (H.faults host.new) result }
    ensures files { H.files host.new ≡ H.files host.old }
    ensures printed { H.printed host.new ≡ H.printed host.old }
    ensures saved { H.saved host.new ≡ H.saved host.old }
{
    match read(alloc, host, name, limit)? {
        Answer::Text(text) => Ok(text),
        Answer::Longer => Err(Stop::Refused(too_long_line(alloc, from)?)),
    }
}

/// Reads the netlist, in this form.
pub fn netlist<H: Host>(
    alloc: Global,
    host: &mut H,
    name: &str,
    form: &NetlistForm,
) -> Result<Source, Stop>
    ensures found { ReadFinds (Netlist form.now) (text_of name.now) (H.files host.old) (H.asked host.old) (H.asked host.new) result }
    ensures lawful { IfOk result IsLawful }
    ensures count { StopCounts (H.faults host.old) (H.faults host.new) result }
    ensures files { H.files host.new ≡ H.files host.old }
    ensures printed { H.printed host.new ≡ H.printed host.old }
    ensures saved { H.saved host.new ≡ H.saved host.old }
{
    let text = text(alloc, host, name, LONGEST, Origin::Verilog)?;
    let source = netlist_of(alloc, &text, form)?;
    Ok(source)
}

/// The cells that are known without a file, where the word is `builtin`, and else those of the file of that name.
pub fn cells<H: Host>(alloc: Global, host: &mut H, name: &str) -> Result<Library, Stop>
    ensures found { CellsFind name.now (H.files host.old) (H.asked host.old) (H.asked host.new) result }
    ensures lawful { IfOk result (λ library. IsLawfulLibrary library.cells) }
    ensures count { StopCounts (H.faults host.old) (H.faults host.new) result }
    ensures files { H.files host.new ≡ H.files host.old }
    ensures printed { H.printed host.new ≡ H.printed host.old }
    ensures saved { H.saved host.new ≡ H.saved host.old }
{
    if name == "builtin" {
        let library = builtin(alloc)?;
        return Ok(library);
    }
    library(alloc, host, name)
}

// Reads the cells.
fn library<H: Host>(alloc: Global, host: &mut H, name: &str) -> Result<Library, Stop>
    ensures found { ReadFinds Cells (text_of name.now) (H.files host.old) (H.asked host.old) (H.asked host.new) result }
    ensures lawful { IfOk result (λ library. IsLawfulLibrary library.cells) }
    ensures count { StopCounts (H.faults host.old) (H.faults host.new) result }
    ensures files { H.files host.new ≡ H.files host.old }
    ensures printed { H.printed host.new ≡ H.printed host.old }
    ensures saved { H.saved host.new ≡ H.saved host.old }
{
    let text = text(alloc, host, name, LONGEST, Origin::Liberty)?;
    let library = cells_of(alloc, &text)?;
    Ok(library)
}

/// Reads the constraints, in this form.
pub fn constraints<H: Host>(
    alloc: Global,
    host: &mut H,
    name: &str,
    form: &ScriptForm,
) -> Result<Script, Stop>
    ensures found { ReadFinds (Constraints form.now) (text_of name.now) (H.files host.old) (H.asked host.old) (H.asked host.new) result }
    ensures multipliers { IfOk result HasMultipliers }
    ensures count { StopCounts (H.faults host.old) (H.faults host.new) result }
    ensures files { H.files host.new ≡ H.files host.old }
    ensures printed { H.printed host.new ≡ H.printed host.old }
    ensures saved { H.saved host.new ≡ H.saved host.old }
{
    let text = text(alloc, host, name, LONGEST, Origin::Sdc)?;
    let script = constraints_of(alloc, &text, form)?;
    Ok(script)
}

/// Reads the netlist, its cells and its constraints, in this order, netlist and constraints in these forms.
pub fn texts<'a, H: Host>(
    alloc: Global,
    host: &mut H,
    names: Texts<'a>,
    forms: Forms,
) -> Result<ReadTexts, Stop>
    ensures found { TextsFind (seen_texts names.entry) forms (H.files host.old) (H.asked host.old) (H.asked host.new) result }
    ensures lawful { IfOk result AreLawful }
    ensures count { StopCounts (H.faults host.old) (H.faults host.new) result }
    ensures files { H.files host.new ≡ H.files host.old }
    ensures printed { H.printed host.new ≡ H.printed host.old }
    ensures saved { H.saved host.new ≡ H.saved host.old }
{
    let source = netlist(alloc, host, names.netlist, &forms.netlist)?;
    let library = cells(alloc, host, names.cells)?;
    let script = constraints(alloc, host, names.constraints, &forms.script)?;
    Ok(ReadTexts {
        source,
        library,
        script,
        forms,
    })
}
