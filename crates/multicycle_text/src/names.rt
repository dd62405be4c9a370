//! Names that can be written.
ghost use Rattle.std.specs.Prelude.{◌≡◌};
ghost use Rattle.std.specs.List.{list_all};
ghost use Rattle.multicycle_text.specs.Names as spec;

use texts::is_word;

fn is_joining(byte: u8) -> bool
    ensures { result ≡ spec.is_joining byte }
{
    matches!(byte, b'$' | b'/' | b'[' | b']' | b'.' | b':' | b'-')
}

fn is_name_byte(byte: u8) -> bool
    ensures { result ≡ spec.is_name_byte byte }
{
    is_word(byte) || is_joining(byte)
}

fn are_name_bytes(name: &[u8]) -> bool
    ensures { result ≡ list_all spec.is_name_byte name.now }
{
    name.iter().all(|byte| is_name_byte(*byte))
}

/// Whether the name can be written: it is not empty, does not begin like an option, and has no byte that means something to
/// the reader where it stands in braces, or in a pattern.
pub fn writable(name: &[u8]) -> bool
    ensures { result ≡ spec.is_writable name.now }
{
    !name.is_empty() && name[0] != b'-' && are_name_bytes(name)
}
