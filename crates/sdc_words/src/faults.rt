//! Why a text is no list of commands.
ghost use Rattle.std.specs.Prelude.{◌≡◌, length};
ghost use Rattle.sdcv_base.specs.Cursors.{rest, text_of};
ghost use Rattle.texts.specs.Rules.{offset_of};
ghost use Rattle.sdc_words.specs.declared.faults.WordFault.TheVariants as fault;
ghost use Rattle.sdc_words.specs.Faults.{of_words};

use script_types::SdcFault;
use sdcv_base::Cursor;
use std::alloc::{AllocError, AllocFailed};
use thiserror::Error;

/// Why a text is no list of commands. Offsets count bytes from 0.
#[derive(Debug, Drop, Error)]
pub enum WordFault {
    /// No word goes on there like this. The offset is at most the text's length.
    #[error("byte {0}: no SDC command goes on like this")]
    Syntax(usize),
    #[error("out of memory")]
    Memory,
    /// A brace or a bracket stands there within as many as may be open. The offset is at most the text's length.
    #[error("byte {0}: too many braces and brackets are open")]
    Deep(usize),
}

impl From<AllocError> for WordFault {
    ghost from_gives = { λ _ e. e ≡ fault.Memory };

    fn from(_: AllocError) -> WordFault {
        WordFault::Memory
    }
}

impl<T: Drop> From<AllocFailed<T>> for WordFault {
    ghost from_gives = { λ _ e. e ≡ fault.Memory };

    fn from(_: AllocFailed<T>) -> WordFault {
        WordFault::Memory
    }
}

impl From<WordFault> for SdcFault {
    ghost from_gives = { λ f e. e ≡ of_words f };

    fn from(fault: WordFault) -> SdcFault {
        match fault {
            WordFault::Syntax(place) => SdcFault::Syntax(place),
            WordFault::Memory => SdcFault::Memory,
            WordFault::Deep(place) => SdcFault::Deep(place),
        }
    }
}

/// The text breaks the grammar here.
pub fn refused(c: &Cursor<'_>) -> WordFault
    ensures { result ≡ fault.Syntax (offset_of (length (text_of c.now)) (rest c.now)) }
{
    WordFault::Syntax(c.place())
}

/// A brace or a bracket is opened here within as many as may be open.
pub fn deep(c: &Cursor<'_>) -> WordFault
    ensures { result ≡ fault.Deep (offset_of (length (text_of c.now)) (rest c.now)) }
{
    WordFault::Deep(c.place())
}
