//! Texts as large as tools write them.

use sdcv_base::{FileRec, MemHost, Name};
use sdcv_top::Status::Done;
use sdcv_top::run;
use std::alloc::{AllocError, Global};
use std::process::Abort;

const CONSTRAINTS: &str = "create_clock -name ck -period 10 [get_ports clk]
set_multicycle_path 1 -from a -to b
";

// The cells of a library, of 250 kilobytes; the function of each has 199 bytes.
const CELL_COUNT: usize = 650;

fn add_cell(alloc: Global, text: &mut Vec<u8>, number: usize) -> Result<(), AllocError> {
    let head = format!(in alloc;
        "  cell (C{number}) {{ area : 1.5; pin (A) {{ direction : input; }}\n"
    )?;
    text.extend_from_slice(head.as_bytes())?;
    text.extend_from_slice(b"    pin (Y) { direction : output; function : \"A")?;
    for _ in 0..33 {
        text.extend_from_slice(b" * !!A")?;
    }
    text.extend_from_slice(
        b"\"; timing () { related_pin : \"A\"; cell_rise (t) { values (\"0.1, 0.2\", \"0.3, 0.4\"); } } } }\n",
    )?;
    Ok(())
}

const LIBRARY_HEAD: &str = "library (l) {
  cell (DFF) { ff (IQ, IQN) { next_state : \"D\"; clocked_on : \"CK\"; }
    pin (D) { direction : input; } pin (CK) { direction : input; clock : true; }
    pin (Q) { direction : output; function : \"IQ\"; } }
";

fn library_text(alloc: Global) -> Result<Vec<u8>, AllocError> {
    let mut text = Vec::new(alloc);
    text.extend_from_slice(LIBRARY_HEAD.as_bytes())?;
    for number in 0..CELL_COUNT {
        add_cell(alloc, &mut text, number)?;
    }
    text.extend_from_slice(b"}\n")?;
    Ok(text)
}

// The buses of a netlist of two megabytes, each of 128 bits.
const BUSES: usize = 235;

fn add_bus(alloc: Global, text: &mut Vec<u8>, bus: usize) -> Result<(), AllocError> {
    let next = bus.wrapping_add(1);
    let cell = bus % CELL_COUNT;
    let head = format!(in alloc; "  wire [127:0] s{next};\n")?;
    text.extend_from_slice(head.as_bytes())?;
    for bit in 0..128 {
        let line = format!(in alloc;
            "  C{cell} u_pipeline_stage_{bus}_of_bit_{bit} (.A(s{bus}[{bit}]), .Y(s{next}[{bit}]));\n"
        )?;
        text.extend_from_slice(line.as_bytes())?;
    }
    Ok(())
}

fn netlist_text(alloc: Global) -> Result<Vec<u8>, AllocError> {
    let mut text = Vec::new(alloc);
    text.extend_from_slice(
        b"module top (input clk, input [127:0] d, output [127:0] q, output y);\n  wire [127:0] s0;\n  wire x;\n  assign s0 = d;\n",
    )?;
    text.extend_from_slice(
        b"  DFF a (.D(d[5]), .CK(clk), .Q(x));\n  DFF b (.D(x), .CK(clk), .Q(y));\n",
    )?;
    for bus in 0..BUSES {
        add_bus(alloc, &mut text, bus)?;
    }
    let last = format!(in alloc; "  assign q = s{BUSES};\nendmodule\n")?;
    text.extend_from_slice(last.as_bytes())?;
    Ok(text)
}

// A host with these files.
fn host_of(alloc: Global, texts: &[(&str, &[u8])]) -> Result<MemHost, AllocError> {
    let mut files = Vec::new(alloc);
    for (name, bytes) in texts {
        let name = Name::new(alloc, name.as_bytes())?;
        let bytes = Vec::from_slice(alloc, bytes)?;
        files.push(FileRec { name, bytes })?;
    }
    MemHost::new(alloc, files, Vec::new(alloc), 65_536)
}

fn words_of(alloc: Global, line: &str) -> Result<Vec<String>, AllocError> {
    let mut words = Vec::new(alloc);
    for word in line.split(' ') {
        words.push(String::from_str(alloc, word)?)?;
    }
    Ok(words)
}

const JUSTIFIED: &[u8] =
    b"pair 1 command 1 multi 1 a -> b justified single\ntotal 1 justified 1 refuted 0 undecided 0\n";

// The pair is justified, and a certificate saved.
fn check_verified(rt: &impl Abort, alloc: Global, host: &mut MemHost) -> Result<(), AllocError> {
    let words = words_of(alloc, "verify v l s --out c")?;
    let ran = run(alloc, &words, host);
    assert_eq!(rt; ran.status, Done);
    assert!(rt; ran.judged.is_some());
    assert!(rt; host.printed().ends_with(JUSTIFIED));
    assert_eq!(rt; host.saved().len(), 1);
    Ok(())
}

#[test]
fn texts_of_real_size_are_read(rt: HostRuntime) -> Result<(), AllocError> {
    let netlist = netlist_text(rt.alloc())?;
    let library = library_text(rt.alloc())?;
    assert!(rt; netlist.len() > 2_000_000);
    assert!(rt; library.len() > 250_000);
    let texts = [
        ("v", netlist.as_slice()),
        ("l", library.as_slice()),
        ("s", CONSTRAINTS.as_bytes()),
    ];
    let mut host = host_of(rt.alloc(), &texts)?;
    check_verified(&rt, rt.alloc(), &mut host)
}
