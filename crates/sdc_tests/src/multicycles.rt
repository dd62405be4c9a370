use multicycle_text::{lines_read_back, push_hold_line, push_line, writable};
use std::alloc::{AllocError, Global};

// By the rules of words, lists and patterns: what may not stand there means something in braces, parts a list, matches more
// than itself or begins an option.
const NAMES: &[(&str, bool)] = &[
    ("r1", true),
    ("_", true),
    ("u1/cnt_reg[0]", true),
    ("$x", true),
    ("a.b:c-d", true),
    ("[3]", true),
    ("", false),
    ("-", false),
    ("-hier", false),
    ("w*", false),
    ("w?", false),
    ("a b", false),
    ("a\\b", false),
    ("{a", false),
    ("a}", false),
    ("\"a\"", false),
    ("a;", false),
    ("a#", false),
];

#[test]
fn a_name_is_written_where_it_means_itself(rt: HostRuntime) {
    for (name, want) in NAMES {
        assert!(rt; writable(name.as_bytes()) == *want, "{name}");
    }
}

const LINES: &str = "set_multicycle_path 2 -from [get_cells {r1}] -to [get_cells {r1}]
set_multicycle_path 1 -hold -from [get_cells {r1}] -to [get_cells {r1}]
set_multicycle_path 16 -from [get_cells {$x}] -to [get_cells {u1/a_reg[0]}]
";

fn three_lines(alloc: Global) -> Result<Vec<u8>, AllocError> {
    let mut text = Vec::new(alloc);
    push_line(alloc, &mut text, 2, b"r1", b"r1")?;
    push_hold_line(alloc, &mut text, 2, b"r1", b"r1")?;
    push_line(alloc, &mut text, 16, b"$x", b"u1/a_reg[0]")?;
    Ok(text)
}

// The law says of all lines that they are read back; that the reader finds memory is a row.
#[test]
fn two_pairs_are_written_and_read(rt: HostRuntime) -> Result<(), AllocError> {
    let text = three_lines(rt.alloc())?;
    assert_eq!(rt; text.as_slice(), LINES.as_bytes());
    lines_read_back();
    Ok(())
}
