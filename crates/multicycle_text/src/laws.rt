//! What is written is read as it is meant. The law is the contract of a call that does nothing, for callers that cite it.
ghost use Rattle.std.specs.Prelude.{◌≡◌, List, All, Ok};
ghost use Rattle.run_options.specs.declared.forms.ScriptForm.TheVariants.{Narrow};
ghost use Rattle.sdc_text.specs.Scripts.{script_of};
ghost use Rattle.multicycle_text.specs.Lines.{CheckLine, lines_text};
ghost use Rattle.multicycle_text.specs.Scripts.{IsReadableLine, script_by};

/// The script that lines of some pairs are has one command a line: the multicycle exception of that pair, or the number of its
/// hold check, between exactly these two cells by name. So `read_sdc` gives this script of a narrow text or wants memory.
pub fn lines_read_back()
    ensures { (lines : List CheckLine) → All IsReadableLine lines → script_of Narrow (lines_text lines) ≡ Ok (script_by lines) }
{}
