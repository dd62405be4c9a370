use crate::expects::same;
use sdc_words::{Commands, Piece, RawCommand, Word, WordFault, cleaned, original};
use sdcv_base::Seq;
use std::alloc::{AllocError, Global};

fn read_all(alloc: Global, text: &[u8]) -> Result<Seq<RawCommand>, WordFault> {
    let mut found = Seq::new(alloc);
    let mut commands = Commands::new(text);
    for _ in 0..text.len() {
        match commands.next_command(alloc)? {
            Some(command) => found.push(command)?,
            None => return Ok(found),
        }
    }
    Ok(found)
}

fn show_piece(out: &mut String, piece: &Piece) -> Result<(), AllocError> {
    match piece {
        Piece::Bytes(bytes) => write!(out, "{bytes}"),
        Piece::Variable(name) => write!(out, "<{name}>"),
    }
}

fn show_pieces(out: &mut String, pieces: &Seq<Piece>) -> Result<(), AllocError> {
    for piece in pieces.as_slice() {
        show_piece(out, piece)?;
    }
    Ok(())
}

fn show_offset(out: &mut String, offset: usize, with_offsets: bool) -> Result<(), AllocError> {
    if with_offsets {
        write!(out, "|{offset}:")
    } else {
        out.push_str("|")
    }
}

fn show_word(out: &mut String, word: &Word, with_offsets: bool) -> Result<(), AllocError> {
    match word {
        Word::Text { offset, pieces } => {
            show_offset(out, *offset, with_offsets)?;
            show_pieces(out, pieces)
        }
        Word::Opens(offset) => {
            show_offset(out, *offset, with_offsets)?;
            out.push_str("[")
        }
        Word::Closes => out.push_str("|]"),
    }
}

fn show_command(
    out: &mut String,
    command: &RawCommand,
    with_offsets: bool,
) -> Result<(), AllocError> {
    let line = command.line;
    write!(out, "\n{line}")?;
    for word in command.words.as_slice() {
        show_word(out, word, with_offsets)?;
    }
    Ok(())
}

// A line for each command: its line, and its words after a `|` each. A variable is shown as `<name>`, a newline as `?`.
fn listing(alloc: Global, text: &[u8], with_offsets: bool) -> Result<String, WordFault> {
    let clean = cleaned(alloc, text)?;
    let commands = read_all(alloc, &clean)?;
    let mut out = String::new(alloc);
    for command in commands.as_slice() {
        show_command(&mut out, command, with_offsets)?;
    }
    Ok(out)
}

// The words of texts by the rules of Tcl that SDC keeps, by hand.
const WORDS: &[(&str, &str)] = &[
    ("", ""),
    (" ;;\n # a; {\n;", ""),
    (
        "create_clock -name clk -period 10.0000 [get_ports {clk}]",
        "\n1|create_clock|-name|clk|-period|10.0000|[|get_ports|clk|]",
    ),
    (
        "set x {a\\}b {c d}}\nset_false_path -from $x",
        "\n1|set|x|a\\}b {c d}\n2|set_false_path|-from|<x>",
    ),
    (
        "set_false_path -to {a{b}c {d{e f}g} h} }",
        "\n1|set_false_path|-to|a{b}c {d{e f}g} h|}",
    ),
    ("x {a;\nb}\ty", "\n1|x|a;?b|y"),
    ("set p \"a\\\\\" b\"", "\n1|set|p|a\\\" b"),
    (
        "x \"a\\\"b\" \"a } $b ;\" \"\" c\\ d",
        "\n1|x|a\"b|a } <b> ;||c d",
    ),
    (
        "set x \\\n 1\n# c \\\n d\ncreate_clock -period 1 ; set_false_path \\\n -to b",
        "\n1|set|x|1\n5|create_clock|-period|1\n5|set_false_path|-to|b",
    ),
    ("# a\\\\\nset_units x", "\n2|set_units|x"),
    ("x # a", "\n1|x|#|a"),
    (
        "set_false_path -to {a\\\r\nb}\r\n",
        "\n1|set_false_path|-to|a b",
    ),
    ("set x a\\\r\nb\r\n\r\ny", "\n1|set|x|a|b\n4|y"),
    ("x \"a\\\nb\" {c\\\\\nd}", "\n1|x|a b|c\\\\?d"),
    (
        "set_false_path -from [get_cells a[3] ] -to [get_cells -hier a;b\nc]",
        "\n1|set_false_path|-from|[|get_cells|a[3]|]|-to|[|get_cells|-hier|a;b?c|]",
    ),
    ("x {a[b]} a[*:?0] $q[0]", "\n1|x|a[b]|a[*:?0]|<q>[0]"),
    (
        "set {a b} 2; set {} 1; set y \"${a b}\"; m ${}$ -c $y",
        "\n1|set|a b|2\n1|set||1\n1|set|y|<a b>\n1|m|<>$|-c|<y>",
    ),
    ("x \"${a\\\"b}\"", "\n1|x|<a\\\"b>"),
    (
        "set_load $nope [foo {]}] }\n{set} x 1\ns\\et y $x\n\"set_false_path\" -to x$y",
        "\n1|set_load|<nope>|[|foo|]|]|}\n2|set|x|1\n3|set|y|<x>\n4|set_false_path|-to|x<y>",
    ),
    (
        "x [list [list a] \n\\\n# b]",
        "\n1|x|[|list|[|list|a|]|?|#|b|]",
    ),
    ("a]b c{d}\" $;x\\", "\n1|a]b|c{d}\"|$\n1|x\\"),
];

#[test]
fn commands_have_their_words(rt: HostRuntime) -> Result<(), WordFault> {
    for (text, want) in WORDS {
        let found = listing(rt.alloc(), text.as_bytes(), false)?;
        same(&rt, text, found.as_str(), want);
    }
    Ok(())
}

#[test]
fn words_have_their_offsets(rt: HostRuntime) -> Result<(), WordFault> {
    let found = listing(rt.alloc(), b" x [a $b] {c}", true)?;
    same(&rt, "", found.as_str(), "\n1|1:x|3:[|4:a|6:<b>|]|10:c");
    Ok(())
}

// The places at which these texts stop being commands, by hand.
const REFUSED: &[(&str, usize)] = &[
    ("x {a", 2),
    ("x {a\\} b", 2),
    ("x \"a", 4),
    ("x {a}b", 5),
    ("x \"a\"b", 5),
    ("x [a]b", 5),
    ("x [a {b}c]", 8),
    ("x [a", 4),
    ("x [[a] b", 8),
    ("x [foo ]]", 8),
    ("x [list [list a]\n]", 16),
    ("x a[", 3),
    ("x a[]", 3),
    ("x a[0b]", 3),
    ("set y ${a b}", 6),
    ("set y [a ${b]}", 9),
    ("set_false_path -from [get_cells a[b]]", 33),
    ("set_units x\r\nset_false_path -to {a}b\r\n", 35),
];

// The place at which a text stops being commands, if it does.
fn refused_at(alloc: Global, text: &[u8]) -> Result<Option<usize>, AllocError> {
    let clean = cleaned(alloc, text)?;
    Ok(match read_all(alloc, &clean) {
        Err(WordFault::Syntax(place)) => Some(original(text, place)),
        _ => None,
    })
}

#[test]
fn a_broken_text_is_refused_at_its_place(rt: HostRuntime) -> Result<(), AllocError> {
    for (text, want) in REFUSED {
        let found = refused_at(rt.alloc(), text.as_bytes())?;
        assert_eq!(rt; found, Some(*want), "{text}");
    }
    Ok(())
}

// What developers see of each fault.
const SHOWN: &[(WordFault, &str)] = &[
    (
        WordFault::Syntax(7),
        "byte 7: no SDC command goes on like this",
    ),
    (WordFault::Memory, "out of memory"),
    (
        WordFault::Deep(8),
        "byte 8: too many braces and brackets are open",
    ),
];

#[test]
fn faults_are_shown(rt: HostRuntime) -> Result<(), AllocError> {
    for (fault, want) in SHOWN {
        let shown = format!(in rt.alloc(); "{fault}")?;
        same(&rt, want, shown.as_str(), want);
    }
    Ok(())
}
