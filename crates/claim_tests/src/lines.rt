//! Lines of certificates, and why some are none, by hand.
use cert_lines::{Fault, Section, read_first, read_inv, read_kept, read_section, take_section};
use cert_words::Stop;
use sdcv_base::Cursor;
use std::alloc::Global;

/// What a line is read as.
#[derive(Clone, Copy)]
enum Kind {
    First,
    Inv,
    Kept,
    /// A kept clause of the version in which clauses may be long.
    Long,
    Section,
}

/// Why the line is none of the kind, where it is none.
fn stop_of(alloc: Global, kind: Kind, line: &[u8], cut: bool) -> Option<Stop> {
    match kind {
        Kind::First => read_first(line, cut).err(),
        Kind::Inv => read_inv(line, cut).err(),
        Kind::Kept => read_kept(alloc, line, cut, false).err(),
        Kind::Long => read_kept(alloc, line, cut, true).err(),
        Kind::Section => read_section(line, cut).err(),
    }
}

const BAD: Option<Stop> = Some(Stop::Bad);

const EARLY: Option<Stop> = Some(Stop::Early);

// A kind, a line without its newline, whether the text ends before that, and why it is none of the kind: it breaks the form,
// or it is cut off and more bytes can mend it. By hand.
const LINES: &[(Kind, &str, bool, Option<Stop>)] = &[
    (Kind::First, "sdcv-cert 1", false, None),
    (Kind::First, "sdcv-cert 1", true, EARLY),
    (Kind::First, "sdcv-ce", true, EARLY),
    (Kind::First, "sdcv-ce", false, BAD),
    (Kind::First, "sdcv-cert 2", false, None),
    (Kind::First, "sdcv-cert 2", true, EARLY),
    (Kind::First, "sdcv-cert ", true, EARLY),
    (Kind::First, "sdcv-cert 3", false, None),
    (Kind::First, "sdcv-cert 3", true, EARLY),
    (Kind::First, "sdcv-cert 4", true, BAD),
    (Kind::First, "sdcv-cert 0", false, BAD),
    (Kind::First, "sdcv-cert 02", false, BAD),
    (Kind::First, "sdcv-cert 20", true, BAD),
    // Clauses are kept at a depth from 1 to 8.
    (Kind::Inv, "inv 8 1", false, None),
    (Kind::Inv, "inv 9 1", false, BAD),
    (Kind::Inv, "inv 9", true, BAD),
    (Kind::Inv, "inv 0 0", false, None),
    (Kind::Inv, "inv 0 1", false, BAD),
    (Kind::Inv, "inv 01 1", false, BAD),
    (Kind::Inv, "inv 1", true, EARLY),
    (Kind::Inv, "inv 1 1 1", false, BAD),
    // One literal, or two of ascending registers.
    (Kind::Kept, "k -1", false, None),
    (Kind::Kept, "k 1 -2", false, None),
    (Kind::Kept, "k 1 -1", false, BAD),
    (Kind::Kept, "k 1 2 3", false, BAD),
    (Kind::Kept, "k 1 -", true, EARLY),
    (Kind::Kept, "k 1 -2 ", true, BAD),
    (Kind::Kept, "k 1 -2 3", true, BAD),
    (Kind::Kept, "k", false, BAD),
    (Kind::Kept, "k", true, EARLY),
    (Kind::Kept, "k ", false, BAD),
    (Kind::Kept, "k ", true, EARLY),
    (Kind::Kept, "k 1", false, None),
    (Kind::Kept, "k 1", true, EARLY),
    (Kind::Kept, "k 1 ", false, BAD),
    (Kind::Kept, "k 1 ", true, EARLY),
    (Kind::Kept, "k 1 1", true, EARLY),
    (Kind::Kept, "k 2 1", false, BAD),
    (Kind::Kept, "k 2 1", true, EARLY),
    (Kind::Kept, "k 1 -2", true, EARLY),
    (Kind::Kept, "k 1 -2 ", false, BAD),
    (Kind::Kept, "k 1 -2 3", false, BAD),
    // Any number of literals, of ascending registers; the greatest number is 2147483647.
    (Kind::Long, "k", false, BAD),
    (Kind::Long, "k", true, EARLY),
    (Kind::Long, "k ", false, BAD),
    (Kind::Long, "k ", true, EARLY),
    (Kind::Long, "k 1", false, None),
    (Kind::Long, "k 1", true, EARLY),
    (Kind::Long, "k 1 ", false, BAD),
    (Kind::Long, "k 1 ", true, EARLY),
    (Kind::Long, "k 1 1", false, BAD),
    (Kind::Long, "k 1 1", true, EARLY),
    (Kind::Long, "k 2 1", false, BAD),
    (Kind::Long, "k 2 1", true, EARLY),
    (Kind::Long, "k 1 -", true, EARLY),
    (Kind::Long, "k 1 -2", false, None),
    (Kind::Long, "k 1 -2", true, EARLY),
    (Kind::Long, "k 1 -2 ", false, BAD),
    (Kind::Long, "k 1 -2 ", true, EARLY),
    (Kind::Long, "k 1 -2 3", false, None),
    (Kind::Long, "k 1 -2 3", true, EARLY),
    (Kind::Long, "k 1 -2 2", false, BAD),
    (Kind::Long, "k 1 -2 0", true, BAD),
    (Kind::Long, "k 1 -2 3 -4 50", false, None),
    (Kind::Long, "k 1 -2 3 0", false, BAD),
    (Kind::Long, "k 1 2147483647", true, EARLY),
    (Kind::Long, "k 1 2147483647 ", true, BAD),
    (Kind::Long, "k 1 2147483648", true, BAD),
    // A pair is proved at a depth of at most 64.
    (Kind::Section, "pair 1 depth 64", false, None),
    (Kind::Section, "pair 1 depth 65", false, BAD),
    (Kind::Section, "pair 1 sing", true, EARLY),
    (Kind::Section, "pair 1 sing", false, BAD),
    (Kind::Section, "end", false, None),
    (Kind::Section, "ende", true, BAD),
];

#[test]
fn a_line_that_is_cut_off_is_told_from_one_that_breaks_its_form(rt: HostRuntime) {
    for (kind, line, cut, want) in LINES {
        let found = stop_of(rt.alloc(), *kind, line.as_bytes(), *cut);
        assert!(rt; found == *want, "{line}");
    }
}

/// The second section of a text.
fn second_section(text: &[u8]) -> Result<Section, Fault> {
    let mut cursor = Cursor::new(text);
    take_section(&mut cursor)?;
    take_section(&mut cursor)
}

// The fault stands at the first byte of the line that breaks its form, or at the end where the text ends early.
const SECONDS: &[(&str, Result<Section, Fault>)] = &[
    ("pair 1 single\nend\n", Ok(Section::End)),
    ("pair 1 single\npair 2 depth 3\n", Ok(Section::Depth(2, 3))),
    ("pair 1 single\nende\n", Err(Fault::Form(14))),
    ("pair 1 single\nen", Err(Fault::Form(16))),
    ("pair 1 si\nend\n", Err(Fault::Form(0))),
];

#[test]
fn a_fault_stands_where_the_text_goes_wrong(rt: HostRuntime) {
    for (text, want) in SECONDS {
        assert!(rt; second_section(text.as_bytes()) == *want, "{text}");
    }
}
