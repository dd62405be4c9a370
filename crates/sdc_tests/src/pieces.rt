use sdc_pieces::rewritten;
use sdcv_base::Name;
use std::alloc::AllocError;

// By the rules of words: a command ends before its newline or its `;`, blanks in front of these are its own, and a comment stands
// between commands. The second command of each text is written anew.
const TEXTS: &[(&str, &str)] = &[
    (
        "set a 1 ;m 2 -to {b\nc} ; x # y\nz\n",
        "set a 1 ;# gone\n; x # y\nz\n",
    ),
    ("# a; b\n\tc\nd", "# a; b\n\tc\n# gone\n"),
    ("a; {b", "a; {b"),
    ("a", "a"),
    ("", ""),
];

#[test]
fn a_command_is_written_anew_in_its_place(rt: HostRuntime) -> Result<(), AllocError> {
    let bodies = [None, Some(Name::new(rt.alloc(), b"# gone\n")?)];
    for (text, want) in TEXTS {
        let new = rewritten(rt.alloc(), text.as_bytes(), &bodies)?;
        assert_eq!(rt; new.as_slice(), want.as_bytes(), "{text}");
    }
    Ok(())
}
