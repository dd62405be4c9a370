//! Texts from files.
ghost use Rattle.std.specs.Prelude.{IfOk};
ghost use Rattle.cell_types.specs.Libraries.{IsLawful as IsLawfulLibrary};
ghost use Rattle.design_stages.specs.Designs.{AreLawful};
ghost use Rattle.exception_expand.specs.Selections.{HasMultipliers};
ghost use Rattle.netlist_types.specs.Lawful.{IsLawful};

use crate::commands::{DesignWords, RunWords};
use crate::ends::{Ended, or_ended};
use cell_types::{Library, builtin};
use design_stages::{ReadTexts, cells, constraints, netlist};
use netlist_types::Source;
use run_options::{Forms, NetlistForm, ScriptForm};
use script_types::Script;
use sdcv_base::{Host, Name, ReadFault, Seq};
use std::alloc::Global;
use view_commands::{ReadReport, Stop, form_of, names_of, netlist_of, report_of};

/// The most bytes that a file may have.
const MOST_BYTES: usize = 67_108_864;

/// How the texts of a design are read, by its words.
#[derive(Drop)]
pub struct AskedForms {
    pub netlist: NetlistForm,
    /// Commands of these names are passed over.
    pub names: Option<Seq<Name>>,
}

/// The texts of the run of a pair: those of its design, and a report.
#[derive(Drop)]
pub struct RunTexts {
    pub texts: ReadTexts,
    pub report: ReadReport,
}

/// How the texts of a design are read, where the lists and names of its words keep their rules.
pub fn forms_of(alloc: Global, words: &DesignWords<'_>) -> Result<AskedForms, Ended> {
    Ok(AskedForms {
        netlist: netlist_of(alloc, words.free, words.clock, words.top)?,
        names: names_of(alloc, words.skip)?,
    })
}

// Why a file was not read.
fn unread(alloc: Global, name: &str, fault: ReadFault) -> Ended {
    match fault {
        ReadFault::Failed => Ended::Host,
        ReadFault::TooLong => Ended::Stopped(Stop::refused(format!(in alloc;
            "{name} has more than {MOST_BYTES} bytes"
        ))),
        ReadFault::Memory => Ended::Stopped(Stop::Memory),
    }
}

/// The bytes of a file.
pub fn bytes_of<H: Host>(alloc: Global, host: &mut H, name: &str) -> Result<Vec<u8>, Ended> {
    match host.read_file(alloc, name, MOST_BYTES) {
        Ok(bytes) => Ok(bytes),
        Err(fault) => Err(unread(alloc, name, fault)),
    }
}

// The netlist in the file of that name, in this form.
fn source_of<H: Host>(
    alloc: Global,
    host: &mut H,
    name: &str,
    form: &NetlistForm,
) -> Result<Source, Ended>
    ensures { IfOk result IsLawful }
{
    let bytes = bytes_of(alloc, host, name)?;
    match netlist(alloc, &bytes, form) {
        Ok(source) => Ok(source),
        Err(refusal) => Err(Ended::from(refusal)),
    }
}

fn cells_in<H: Host>(alloc: Global, host: &mut H, name: &str) -> Result<Library, Ended>
    ensures { IfOk result (λ library. IsLawfulLibrary library.cells) }
{
    let bytes = bytes_of(alloc, host, name)?;
    match cells(alloc, &bytes) {
        Ok(library) => Ok(library),
        Err(refusal) => Err(Ended::from(refusal)),
    }
}

// The cells that are known without a file, where the word is `builtin`, and else those of the file of that name.
fn library_of<H: Host>(alloc: Global, host: &mut H, name: &str) -> Result<Library, Ended>
    ensures { IfOk result (λ library. IsLawfulLibrary library.cells) }
{
    if name == "builtin" {
        let library = builtin(alloc)?;
        return Ok(library);
    }
    cells_in(alloc, host, name)
}

// The constraints that a text is, in this form.
fn script_in(alloc: Global, text: &[u8], form: &ScriptForm) -> Result<Script, Ended>
    ensures { IfOk result HasMultipliers }
{
    match constraints(alloc, text, form) {
        Ok(script) => Ok(script),
        Err(refusal) => Err(Ended::from(refusal)),
    }
}

// The report in the file of that name.
fn report_in<H: Host>(alloc: Global, host: &mut H, name: &str) -> Result<ReadReport, Ended> {
    let bytes = bytes_of(alloc, host, name)?;
    or_ended(report_of(alloc, name, bytes))
}

// Whether a report was read that was made as for a sign-off.
fn is_strict(report: &Result<ReadReport, Ended>) -> bool {
    match report {
        Ok(read) => read.is_strict(),
        Err(_) => false,
    }
}

/// The netlist, its cells and its constraints, read in this order and in these forms.
pub fn texts_of<H: Host>(
    alloc: Global,
    host: &mut H,
    words: &DesignWords<'_>,
    forms: AskedForms,
) -> Result<ReadTexts, Ended>
    ensures { IfOk result AreLawful }
{
    let source = source_of(alloc, host, words.netlist, &forms.netlist)?;
    let library = library_of(alloc, host, words.cells)?;
    let bytes = bytes_of(alloc, host, words.constraints)?;
    let form = form_of(alloc, forms.names, false);
    let script = script_in(alloc, &bytes, &form)?;
    Ok(ReadTexts {
        source,
        library,
        script,
        forms: Forms {
            netlist: forms.netlist,
            script: form,
        },
    })
}

/// The texts of a design and a report, which says too how the constraints are read. A fault of the constraints comes first.
pub fn run_texts<H: Host>(
    alloc: Global,
    host: &mut H,
    words: &RunWords<'_>,
    forms: AskedForms,
) -> Result<RunTexts, Ended>
    ensures { IfOk result (λ read. AreLawful read.texts) }
{
    let source = source_of(alloc, host, words.design.netlist, &forms.netlist)?;
    let library = library_of(alloc, host, words.design.cells)?;
    let bytes = bytes_of(alloc, host, words.design.constraints)?;
    let report = report_in(alloc, host, words.pair.report);
    let form = form_of(alloc, forms.names, is_strict(&report));
    let script = script_in(alloc, &bytes, &form)?;
    let texts = ReadTexts {
        source,
        library,
        script,
        forms: Forms {
            netlist: forms.netlist,
            script: form,
        },
    };
    Ok(RunTexts {
        texts,
        report: report?,
    })
}
