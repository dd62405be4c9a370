//! Functions of Liberty, against their values by hand.
use lib_func::{Expr, Term, is_function, read_function};
use sdcv_base::Name;
use std::alloc::{AllocError, Global};

// The bit of a name in a row, whose highest bit is A's.
fn name_bit(name: &Name, row: usize) -> bool {
    match name.as_bytes() {
        b"A" => row & 8 != 0,
        b"B" => row & 4 != 0,
        b"C" => row & 2 != 0,
        _ => row & 1 != 0,
    }
}

fn bit(expr: &Expr, row: usize) -> bool {
    match &expr.root {
        Term::Zero => false,
        Term::One => true,
        Term::Name(name) => name_bit(name, row),
        Term::Not(f) => !bit(f, row),
        Term::And(f, g) => bit(f, row) & bit(g, row),
        Term::Or(f, g) => bit(f, row) | bit(g, row),
        Term::Xor(f, g) => bit(f, row) ^ bit(g, row),
    }
}

fn bits(expr: &Expr) -> u16 {
    let mut word: u16 = 0;
    for row in 0..16 {
        word = (word << 1) | u16::from(bit(expr, row));
    }
    word
}

// The bits for A B C D = 0000, 0001, .. 1111, each by hand from the order of the operators.
const FUNCTIONS: &[(&str, u16)] = &[
    ("A B + C^D'", 0b1001_1001_1001_1111),
    ("!(A+B)'", 0b0000_1111_1111_1111),
    ("0", 0b0000_0000_0000_0000),
    ("((A)(B|(1)))", 0b0000_0000_1111_1111),
    ("A!B", 0b0000_0000_1111_0000),
    ("A''", 0b0000_0000_1111_1111),
    ("!!A * B'", 0b0000_0000_1111_0000),
    ("A^B^C&D", 0b0001_0100_0100_0001),
    ("(A+B)(C+D)", 0b0000_0111_0111_0111),
    ("\tA\\\n(B)\n", 0b0000_0000_0000_1111),
    ("1A", 0b0000_0000_1111_1111),
];

// The bits of the function that a text is, if it is one.
fn bits_of(alloc: Global, text: &str) -> Result<Option<u16>, AllocError> {
    Ok(match read_function(alloc, text.as_bytes())? {
        Some(expr) => Some(bits(&expr)),
        None => None,
    })
}

#[test]
fn functions_have_the_values_of_their_grammar(rt: HostRuntime) -> Result<(), AllocError> {
    for (text, want) in FUNCTIONS {
        let found = bits_of(rt.alloc(), text)?;
        assert_eq!(rt; found, Some(*want), "{text}");
        assert!(rt; is_function(text.as_bytes()), "{text}");
    }
    Ok(())
}

// None of these lines goes by the grammar.
const NO_FUNCTIONS: &str = "\nA +\n(A\nA)\n()\nA ^\n!\n'\n2\nA\"B\nA + * B\nA\\B\nA-B\n((A)\nA;";

// Whether a text goes by the grammar, and whether its function is read.
fn kinds(alloc: Global, text: &str) -> Result<(bool, bool), AllocError> {
    let is_read = read_function(alloc, text.as_bytes())?.is_some();
    Ok((is_function(text.as_bytes()), is_read))
}

#[test]
fn other_texts_are_no_function(rt: HostRuntime) -> Result<(), AllocError> {
    for text in NO_FUNCTIONS.split('\n') {
        let (goes, is_read) = kinds(rt.alloc(), text)?;
        assert!(rt; !goes, "{text}");
        assert!(rt; !is_read, "{text}");
    }
    Ok(())
}

fn push_times(text: &mut String, part: &str, count: usize) -> Result<(), AllocError> {
    for _ in 0..count {
        text.push_str(part)?;
    }
    Ok(())
}

// A text: what stands in front so many times, the middle, and what stands behind as often.
fn repeated(
    alloc: Global,
    front: &str,
    middle: &str,
    back: &str,
    count: usize,
) -> Result<String, AllocError> {
    let mut text = String::new(alloc);
    push_times(&mut text, front, count)?;
    text.push_str(middle)?;
    push_times(&mut text, back, count)?;
    Ok(text)
}

fn repeated_kinds(
    alloc: Global,
    front: &str,
    middle: &str,
    back: &str,
    count: usize,
) -> Result<(bool, bool), AllocError> {
    let text = repeated(alloc, front, middle, back, count)?;
    kinds(alloc, text.as_str())
}

// What stands in front, in the middle and behind; how often; and whether it is read.
const DEPTHS: &[(&str, &str, &str, usize, bool)] = &[
    ("!", "A", "", 255, true),
    ("!", "A", "", 256, false),
    ("!", "A", "", 20_000, false),
    ("", "A", "'", 255, true),
    ("", "A", "'", 256, false),
    ("", "A", "'", 300, false),
    ("(", "A", ")", 256, true),
    ("(", "A", ")", 257, false),
    ("(", "A", ")", 7_000, false),
    ("A+", "A", "", 255, true),
    ("A+", "A", "", 256, false),
    ("A+", "A", "", 20_000, false),
    ("A*", "A", "", 255, true),
    ("A*", "A", "", 256, false),
    ("A*", "A", "", 20_000, false),
    ("A ", "A", "", 255, true),
    ("A ", "A", "", 256, false),
    ("A ", "A", "", 300, false),
    ("A^", "A", "", 255, true),
    ("A^", "A", "", 256, false),
    ("A^", "A", "", 300, false),
    ("!(", "A", ")", 255, true),
    ("!(", "A", ")", 256, false),
    ("!(", "A", ")", 300, false),
    ("A+(", "A", ")", 255, true),
    ("A+(", "A", ")", 256, false),
    ("A+(", "A", ")", 300, false),
    ("(", "A", ")'", 255, true),
    ("(", "A", ")'", 256, false),
    ("(", "A", ")'", 300, false),
];

// A name is 1 high, and each of these adds 1; or 256 parentheses stand one inside the other.
#[test]
fn functions_are_256_high(rt: HostRuntime) -> Result<(), AllocError> {
    for (front, middle, back, count, want) in DEPTHS {
        let (goes, is_read) = repeated_kinds(rt.alloc(), front, middle, back, *count)?;
        assert!(rt; goes, "{count} {front}{middle}{back}");
        assert!(rt; is_read == *want, "{count} {front}{middle}{back}");
    }
    Ok(())
}

// Texts that break the grammar, however deep.
const DEEP_NO_FUNCTIONS: &[(&str, &str, &str)] = &[
    ("(", "A", ""),
    ("", "A", ")"),
    ("!", "A +", ""),
    ("!", "", ""),
    ("A+", "", ""),
    ("(", "", ")"),
    ("(", "A", ") A)"),
];

#[test]
fn deep_texts_that_break_the_grammar_are_no_function(rt: HostRuntime) -> Result<(), AllocError> {
    for (front, middle, back) in DEEP_NO_FUNCTIONS {
        let (goes, is_read) = repeated_kinds(rt.alloc(), front, middle, back, 300)?;
        assert!(rt; !goes, "{front}{middle}{back}");
        assert!(rt; !is_read, "{front}{middle}{back}");
    }
    Ok(())
}
