use sdcv_base::{Cursor, Name};
use std::alloc::{AllocError, Global};
use std::process::Abort;
use verilog_words::{
    PrimKind, SyntaxFault, Word, begins_name, begins_number, next_word, opens_list, skip_blanks,
    take_constant, take_name, take_number,
};

// How much of a text's start is passed over, counted by hand.
const BLANKS: &[(&str, usize)] = &[
    ("", 0),
    ("a", 0),
    (" \t\r\n\u{c}a", 5),
    ("// a /* \n;", 9),
    ("// the last line", 16),
    ("/* a /* b */ */", 13),
    ("/**/**/", 4),
    ("/* not closed", 0),
    ("/ * a */", 0),
    ("(* full_case, x = \"*)\" *)", 21),
    ("(**)(*x*)m", 9),
    ("(* a ) *)b", 9),
    ("(*)", 0),
    ("(* not closed )", 0),
    ("`timescale 1ns / 1ps\n`resetallx\nm", 32),
    ("`define x", 0),
    (" `timescale 1ns", 1),
    ("\n`celldefine // *\n/**/`endcelldefine", 22),
];

#[test]
fn blanks_end_at_their_place(rt: HostRuntime) {
    for (text, want) in BLANKS {
        let mut c = Cursor::new(text.as_bytes());
        skip_blanks(&mut c, true);
        assert_eq!(rt; c.place(), *want, "{text}");
    }
}

// A name and the place after it and what is passed over, by hand; no name is told by a `!` and the place of the fault.
const NAMES: &[(&str, &str, usize)] = &[
    ("a", "a", 1),
    ("_a$0 (* x *) ,", "_a$0", 13),
    ("modules", "modules", 7),
    ("module", "!", 0),
    ("tri0 x", "!", 0),
    ("$a", "!", 0),
    ("0a", "!", 0),
    ("\\u1.q[3] ;", "u1.q[3]", 9),
    ("\\module\t", "module", 8),
    ("\\a\n`celldefine\n, b", "a", 15),
    ("\\a`resetall\n", "a`resetall", 12),
    ("\\a", "!", 0),
    ("\\ a", "!", 0),
    ("\\a\u{7f} ", "!", 0),
    ("a`celldefine\n", "a", 1),
];

#[test]
fn names_are_taken(rt: HostRuntime) {
    for (text, want, place) in NAMES {
        let mut c = Cursor::new(text.as_bytes());
        match take_name(&mut c) {
            Ok(name) => {
                assert_eq!(rt; name, want.as_bytes(), "{text}");
                assert_eq!(rt; c.place(), *place, "{text}");
            }
            Err(SyntaxFault::Syntax(at)) => assert!(rt; *want == "!" && at == *place, "{text}"),
            _ => assert!(rt; false, "{text}"),
        }
    }
}

// A number and the place after it, by hand; none where the text begins with no number that is read.
const NUMBERS: &[(&str, Option<(u16, usize)>)] = &[
    ("0", Some((0, 1))),
    ("65535 ]", Some((65_535, 6))),
    ("65536", None),
    (
        "000000000000000000000000000000000000000012:",
        Some((12, 42)),
    ),
    ("100000000000000000000000000000000000000000", None),
    ("1_0", Some((1, 1))),
    ("-1", None),
    ("", None),
];

#[test]
fn numbers_are_taken(rt: HostRuntime) {
    for (text, want) in NUMBERS {
        let mut c = Cursor::new(text.as_bytes());
        let found = take_number(&mut c).ok();
        assert_eq!(rt; found.map(|n| (n, c.place())), *want, "{text}");
    }
}

// The bits of a constant, by hand; a fault's place after a `!`.
const CONSTANTS: &[(&str, &str)] = &[
    ("1'b0", "0"),
    ("01'B1_ ,", "1"),
    ("4'hA", "1010"),
    ("4'hb", "1011"),
    ("3'o5;", "101"),
    ("2'd2", "10"),
    ("2'b_1", "01"),
    ("8'D0_0255", "11111111"),
    (
        "64'hFFFF_FFFF_FFFF_FFFE",
        "1111111111111111111111111111111111111111111111111111111111111110",
    ),
    ("1'b", "!3"),
    ("1'b_", "!3"),
    ("1 'b1", "!1"),
    ("1'q1", "!2"),
    ("2'd4", "!3"),
    ("2'b2", "!3"),
    ("1'bx", "!3"),
    ("65'b0", "!0"),
    ("0'b0", "!0"),
    ("'b0", "!0"),
    ("18446744073709551617'b0", "!0"),
    ("64'h10000000000000000", "!4"),
];

fn show_constant(alloc: Global, text: &[u8]) -> Result<String, AllocError> {
    let mut c = Cursor::new(text);
    let mut shown = String::new(alloc);
    let found = take_constant(alloc, &mut c);
    match &found {
        Ok(bits) => {
            for bit in bits.as_slice() {
                write!(&mut shown, "{}", u8::from(*bit))?;
            }
        }
        Err(SyntaxFault::Syntax(place)) => write!(&mut shown, "!{place}")?,
        Err(_) => {}
    }
    Ok(shown)
}

#[test]
fn constants_have_their_bits(rt: HostRuntime) -> Result<(), AllocError> {
    for (text, want) in CONSTANTS {
        let shown = show_constant(rt.alloc(), text.as_bytes())?;
        assert_eq!(rt; shown.as_str(), *want, "{text}");
    }
    Ok(())
}

// Words and lists as they begin, by hand: the word, whether a name, a number and a list begin there.
const FRONTS: &[(&str, Option<Word>, bool, bool, bool)] = &[
    ("supply0 a", Some(Word::Supply0), false, false, false),
    (
        "xnor(",
        Some(Word::Gate(PrimKind::Xnor)),
        false,
        false,
        false,
    ),
    ("genvar", Some(Word::Unsupported), false, false, false),
    ("nand2", None, true, false, false),
    ("\\and ", None, true, false, false),
    ("9", None, false, true, false),
    ("()", None, false, false, true),
    ("(*)", None, false, false, true),
    ("(* x", None, false, false, false),
    ("", None, false, false, false),
];

#[test]
fn what_comes_next_is_told(rt: HostRuntime) {
    for (text, word, name, number, list) in FRONTS {
        let c = Cursor::new(text.as_bytes());
        assert_eq!(rt; next_word(&c), *word, "{text}");
        assert_eq!(rt; begins_name(&c), *name, "{text}");
        assert_eq!(rt; begins_number(&c), *number, "{text}");
        assert_eq!(rt; opens_list(&c), *list, "{text}");
    }
}

fn check_told(
    rt: &impl Abort,
    alloc: Global,
    fault: &SyntaxFault,
    want: &str,
) -> Result<(), AllocError> {
    let told = format!(in alloc; "{fault}")?;
    assert_eq!(rt; told.as_str(), want);
    Ok(())
}

fn unsupported(alloc: Global) -> Result<SyntaxFault, AllocError> {
    Ok(SyntaxFault::Unsupported(18, Name::new(alloc, b"reg")?))
}

// What developers see of each fault.
#[test]
fn faults_are_shown(rt: HostRuntime) -> Result<(), AllocError> {
    let alloc = rt.alloc();
    let syntax = "byte 7: no netlist goes on like this";
    check_told(&rt, alloc, &SyntaxFault::Syntax(7), syntax)?;
    let begins = "byte 18: reg begins nothing that a netlist has";
    let unsupported = unsupported(alloc)?;
    check_told(&rt, alloc, &unsupported, begins)?;
    let deep = "byte 288: too many marks are open here";
    check_told(&rt, alloc, &SyntaxFault::Deep(288), deep)?;
    check_told(&rt, alloc, &SyntaxFault::Memory, "out of memory")
}
