//! What the form of a script asks for.
ghost use Rattle.std.specs.Prelude.{◌≡◌};
ghost use Rattle.sdc_text.specs.Forms as spec;

use run_options::ScriptForm;
use sdc_values::Nesting;
use sdcv_base::Name;

pub fn is_wide(form: &ScriptForm) -> bool
    ensures { result ≡ spec.is_wide form.now }
{
    match form {
        ScriptForm::Narrow => false,
        ScriptForm::Wide(_) => true,
    }
}

/// How the nested commands of a command are read.
pub fn nesting_of(form: &ScriptForm) -> Nesting
    ensures { result ≡ spec.nesting_of form.now }
{
    match form {
        ScriptForm::Narrow => Nesting::Narrow,
        ScriptForm::Wide(_) => Nesting::Wide,
    }
}

fn is_among(names: &[Name], x: &[u8]) -> bool
    ensures { result ≡ spec.is_among names.now x.now }
{
    names.iter().any(|name| name.as_bytes() == x)
}

/// Whether a command of this name may be passed over where it has no reading.
pub fn skips(form: &ScriptForm, name: &[u8]) -> bool
    ensures { result ≡ spec.skips form.now name.now }
{
    match form {
        ScriptForm::Narrow => false,
        ScriptForm::Wide(names) => is_among(names.as_slice(), name),
    }
}
