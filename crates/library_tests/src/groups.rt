//! The cells, parts and attributes of Liberty texts, against those read by hand.
use crate::expects::same;
use lib_words::{Attribute, CellGroup, GroupFault, Part, read_cells};
use sdcv_base::{Name, Seq};
use std::alloc::{AllocError, Global};

fn show_offset(out: &mut String, offset: usize, with_offsets: bool) -> Result<(), AllocError> {
    if with_offsets {
        write!(out, " {offset}")
    } else {
        Ok(())
    }
}

fn show_attribute(
    out: &mut String,
    attribute: &Attribute,
    with_offsets: bool,
) -> Result<(), AllocError> {
    let kind = attribute.kind;
    let text = &attribute.value.text;
    write!(out, " {kind:?}")?;
    show_offset(out, attribute.value.offset, with_offsets)?;
    let quote = if attribute.value.is_quoted { "\"" } else { "" };
    write!(out, " {quote}{text}{quote};")
}

fn show_attributes(
    out: &mut String,
    attributes: &Seq<Attribute>,
    with_offsets: bool,
) -> Result<(), AllocError> {
    for attribute in attributes.as_slice() {
        show_attribute(out, attribute, with_offsets)?;
    }
    Ok(())
}

fn show_names(out: &mut String, names: &Seq<Name>) -> Result<(), AllocError> {
    for name in names.as_slice() {
        write!(out, " {name}")?;
    }
    Ok(())
}

fn show_part(out: &mut String, part: &Part, with_offsets: bool) -> Result<(), AllocError> {
    let kind = part.kind;
    write!(out, "\n{kind:?}")?;
    show_names(out, &part.names)?;
    out.push_str(";")?;
    show_attributes(out, &part.attributes, with_offsets)
}

fn show_cell(out: &mut String, cell: &CellGroup, with_offsets: bool) -> Result<(), AllocError> {
    let name = &cell.name;
    write!(out, "\ncell {name};")?;
    show_attributes(out, &cell.attributes, with_offsets)?;
    for part in cell.parts.as_slice() {
        show_part(out, part, with_offsets)?;
    }
    Ok(())
}

// A line for each cell and one for each of its parts, with names, attributes and the offsets of their values.
fn listing(alloc: Global, text: &[u8], with_offsets: bool) -> Result<String, GroupFault> {
    let cells = read_cells(alloc, text)?;
    let mut out = String::new(alloc);
    for cell in cells.as_slice() {
        show_cell(&mut out, cell, with_offsets)?;
    }
    Ok(out)
}

const VENDOR: &str = r#"/* As a synthesis vendor writes it. */
library ("typical") {
  technology (cmos) ;
  delay_model : table_lookup;
  date : "Mon Jan 1 2024; 10:00"
  revision : 1.0 ;;
  capacitive_load_unit (1, pf);
  operating_conditions ("PVT 0.9V") {
    process : 1 ;
    tree_type : "balanced_tree" }
  lu_table_template (delay_2x3) {
    variable_1 : input_net_transition ;
    index_1 ("0.01, 0.02, \
              0.04");
  };
  cell (NAND2X1) {
    area : 2.4 ;
    cell_footprint : "nand2"
    pg_pin (VDD) { voltage_name : VDD; pg_type : primary_power; }
    pin(A)  {
      direction : input;
      capacitance : 0.002 ; }
    pin ( B ) {
      direction : /* quoted */ "input" ;
      internal_power () { rise_power (scalar) { values ("0.1") } }
    }
    pin(Y) {
      direction : output ;
      function : "!(A B)" ;
      timing () {
        related_pin : "A B" ;
        cell_rise (delay_2x3) {
          index_1 ( "0.01, 0.02, 0.04" ) ;
          values ( "0.1, 0.2, 0.3", \
                   "0.2, 0.3, 0.4" ) ;
        }
        function : "of the timing group" ;
      }
    }
  } /* NAND2X1 */
  cell ("DFFR") {
    clock_gating_integrated_cell : latch_posedge ;
    ff ("IQ","IQN") {
      clocked_on: C;
      next_state : "D"
      clear : "RN'" ;
      clear_preset_var1 : L
    }
    pin (C, D ,, RN) { direction : input }
    pin (Q) { three_state : "E"; function : "IQ" ; direction : output }
    statetable ("C D", "IQ") { table : "R H : - : H, \
                                        - - : - : N" ; }
    test_cell () { pin (D) { direction : input ; } ff (IQ,IQN) { next_state : "D" ; } }
    latch (L, LN) { enable : "C" ; } latch_bank (M, MN, 2) { }
    ff_bank (N, NN, 2) { clocked_on_also : "C'" ; preset : "0" ; }
    bus (W) { bus_type : w2 ; pin (W[0]) { direction : input ; } }
    bundle (V) { members (V0, V1) ; direction : inout ; }
  }
  cell_footprint_group (x) { cell (Z) { } }
}
"#;

// Read by hand: the library's cells, of each the parts and attributes that count.
const VENDOR_CELLS: &str = r#"
cell NAND2X1;
PgPin VDD;
Pin A; Direction input;
Pin B; Direction "input";
Pin Y; Direction output; Function "!(A B)";
cell DFFR; ClockGatingIntegratedCell latch_posedge;
Ff IQ IQN; ClockedOn C; NextState "D"; Clear "RN'"; ClearPresetVar1 L;
Pin C D RN; Direction input;
Pin Q; ThreeState "E"; Function "IQ"; Direction output;
Statetable C D IQ;
Latch L LN;
LatchBank M MN 2;
FfBank N NN 2; ClockedOnAlso "C'"; Preset "0";
Bus W;
Bundle V; Direction inout;"#;

#[test]
fn a_vendors_library_has_its_cells(rt: HostRuntime) -> Result<(), GroupFault> {
    let found = listing(rt.alloc(), VENDOR.as_bytes(), false)?;
    same(&rt, "the vendor's", found.as_str(), VENDOR_CELLS);
    Ok(())
}

// Offsets counted by hand: a quoted value's is that of the byte after the quote.
const OFFSETS: &[(&str, &str)] = &[
    ("library(){}", ""),
    (" library (l) { ; } ; /* */\n", ""),
    ("library(l){cell(X){}}", "\ncell X;"),
    ("library(l){cell(X){clear:A}}", "\ncell X; Clear 25 A;"),
    (
        "library (l) { cell (X) { pin (Y) { direction : output; function : \"A +\"; } } }",
        "\ncell X;\nPin Y; Direction 47 output; Function 67 \"A +\";",
    ),
    (
        "library(l){cell(X){clear:\"\"}}",
        "\ncell X; Clear 26 \"\";",
    ),
    ("library(l){cell(X){clear:;}}", "\ncell X; Clear 25 ;"),
    (
        "library(l){cell(X){clear: A /* B */ \n}}",
        "\ncell X; Clear 26 A;",
    ),
    (
        "library(l){cell(X){clear:R /* a;\n}*/ ;}}",
        "\ncell X; Clear 25 R;",
    ),
    (
        "library(l){cell(X){clear:A/**/B /**/}}",
        "\ncell X; Clear 25 A B;",
    ),
    (
        "library(l){cell(X){clear/**/:/**/A\\\n}}",
        "\ncell X; Clear 33 A;",
    ),
    (
        "library(l){\r\ncell(X){\r\nclear : \\\n\"A;}\";\r\n}\r\n}\r\n",
        "\ncell X; Clear 34 \"A;}\";",
    ),
    (
        "library(l){cell(X){clear:A;clear:\"B\"clear:C}}",
        "\ncell X; Clear 25 A; Clear 34 \"B\"; Clear 42 C;",
    ),
    (
        "library(l){cell(X){pin(\"A B\",C\\\nD,E/*F*/ G){}}}",
        "\ncell X;\nPin A B C D E G;",
    ),
    (
        "library(l){cell(X);cell:X;pin(X){};cell(Y){pin(X);ff:X}}",
        "\ncell Y;",
    ),
];

#[test]
fn values_have_their_offsets(rt: HostRuntime) -> Result<(), GroupFault> {
    for (text, want) in OFFSETS {
        let found = listing(rt.alloc(), text.as_bytes(), true)?;
        same(&rt, text, found.as_str(), want);
    }
    Ok(())
}

// The places at which these texts stop being a library, by hand.
const REFUSED: &[(&str, usize)] = &[
    ("", 0),
    ("/* library(l){}", 0),
    ("lib(l){}", 0),
    ("library{}", 7),
    ("library(l)", 10),
    ("library(l){", 11),
    ("library(l){cell(X){pin(A){}}", 28),
    ("library(l){cell(X{}}", 20),
    ("library(l){cell(X)}}", 19),
    ("library(l){cell(X){}};;", 22),
    ("library(l){} x", 13),
    ("library(l){cell(){}}", 17),
    ("library(l){cell(X,Y){}}", 20),
    ("library(l){a:\"b}", 13),
    ("library(l){a(\"b)}", 13),
    ("library(l){a(\"b\"c)}", 16),
    ("library(l){a((b))}", 13),
    ("library(l){a b;}", 13),
    ("library(l){a:/*b}", 13),
    ("library(l){cell(X){clear:R /* x;}}", 27),
    ("library(l){a(){b(){c}}}", 20),
    ("library(l){:}", 11),
    ("library(l){a:b c:d}}", 19),
];

// So many groups, one inside the other, from the library on.
fn nested(alloc: Global, groups: usize) -> Result<String, AllocError> {
    let mut text = String::new(alloc);
    text.push_str("library(l){")?;
    for _ in 1..groups {
        text.push_str("a(){")?;
    }
    for _ in 0..groups {
        text.push_str("}")?;
    }
    Ok(text)
}

// What reading a text comes to: how many cells it has, or the fault with its place.
fn told(alloc: Global, text: &str) -> Result<usize, GroupFault> {
    let cells = read_cells(alloc, text.as_bytes())?;
    Ok(cells.as_slice().len())
}

// The place at which so many groups are too deep.
fn deep_place(alloc: Global, groups: usize) -> Result<Option<usize>, AllocError> {
    let text = nested(alloc, groups)?;
    Ok(match told(alloc, text.as_str()) {
        Err(GroupFault::Deep(place)) => Some(place),
        _ => None,
    })
}

const TOO_MANY: &[usize] = &[257, 300, 20_000];

// The 257th `{` stands after the first group's 11 bytes, 255 groups of 4 bytes and the 3 bytes before it.
#[test]
fn groups_nest_256_deep(rt: HostRuntime) -> Result<(), GroupFault> {
    let text = nested(rt.alloc(), 256)?;
    assert_eq!(rt; told(rt.alloc(), text.as_str())?, 0);
    for groups in TOO_MANY {
        assert_eq!(rt; deep_place(rt.alloc(), *groups)?, Some(1034), "{groups}");
    }
    Ok(())
}

// The place at which a text stops being a library.
fn syntax_place(alloc: Global, text: &str) -> Option<usize> {
    match told(alloc, text) {
        Err(GroupFault::Syntax(place)) => Some(place),
        _ => None,
    }
}

#[test]
fn a_broken_text_is_refused_at_its_place(rt: HostRuntime) {
    for (text, want) in REFUSED {
        assert_eq!(rt; syntax_place(rt.alloc(), text), Some(*want), "{text}");
    }
}
