use std::alloc::{AllocError, Global};
use verilog_syntax::{
    ConnDecl, Dir, Head, ItemDecl, ModuleDecl, Part, PartDecl, PortDecl, PrimDecl, Range, Select,
    Spelled, TermDecl, read_modules,
};

fn show_parts(out: &mut String, parts: &[PartDecl]) -> Result<(), AllocError> {
    for part in parts {
        let offset = part.offset;
        write!(out, " {offset}:")?;
        match &part.part {
            Part::Net { name, select } => match select {
                Select::All => write!(out, "{name}")?,
                Select::Bit(i) => write!(out, "{name}[{i}]")?,
                Select::Slice(i, j) => write!(out, "{name}[{i}:{j}]")?,
            },
            Part::Bits(bits) => {
                for bit in bits.as_slice() {
                    out.push_str(if *bit { "1" } else { "0" })?;
                }
            }
        }
    }
    Ok(())
}

fn show_terms(out: &mut String, terms: &[TermDecl]) -> Result<(), AllocError> {
    for term in terms {
        show_parts(out, term.parts.as_slice())?;
    }
    Ok(())
}

fn show_range(out: &mut String, range: Option<Range>) -> Result<(), AllocError> {
    if let Some(Range { msb, lsb }) = range {
        write!(out, "[{msb}:{lsb}]")?;
    }
    Ok(())
}

fn show_ports(out: &mut String, ports: &[PortDecl]) -> Result<(), AllocError> {
    for port in ports {
        out.push_str(match port.dir {
            Dir::Input => " in",
            Dir::Output => " out",
            Dir::Inout => " inout",
        })?;
        show_range(out, port.range)?;
        let Spelled { offset, name } = &port.name;
        write!(out, " {offset}:{name}")?;
    }
    Ok(())
}

fn show_conns(out: &mut String, conns: &[ConnDecl]) -> Result<(), AllocError> {
    for conn in conns {
        let ConnDecl { offset, pin, parts } = conn;
        write!(out, " .{offset}:{pin}")?;
        match parts {
            Some(parts) => show_parts(out, parts.as_slice())?,
            None => out.push_str(" -")?,
        }
    }
    Ok(())
}

fn show_prims(out: &mut String, prims: &[PrimDecl]) -> Result<(), AllocError> {
    for prim in prims {
        match &prim.name {
            Some(name) => write!(out, " {name}")?,
            None => out.push_str(" -")?,
        }
        show_terms(out, prim.outs.as_slice())?;
        out.push_str(" of")?;
        show_terms(out, prim.ins.as_slice())?;
    }
    Ok(())
}

fn show_item(out: &mut String, item: &ItemDecl) -> Result<(), AllocError> {
    match item {
        ItemDecl::Ports(ports) => show_ports(out, ports.as_slice())?,
        ItemDecl::Nets { kind, range, names } => {
            write!(out, " {kind:?}")?;
            show_range(out, *range)?;
            for name in names.as_slice() {
                write!(out, " {name}")?;
            }
        }
        ItemDecl::Assigns(list) => {
            for assign in list.as_slice() {
                show_parts(out, assign.target.parts.as_slice())?;
                out.push_str(" =")?;
                show_parts(out, assign.value.parts.as_slice())?;
            }
        }
        ItemDecl::Prims { kind, list } => {
            write!(out, " {kind:?}")?;
            show_prims(out, list.as_slice())?;
        }
        ItemDecl::Insts { cell, list } => {
            write!(out, " {cell}")?;
            for inst in list.as_slice() {
                let name = &inst.name;
                write!(out, " {name}")?;
                show_conns(out, inst.conns.as_slice())?;
            }
        }
    }
    Ok(())
}

// A `/` before each module and a `;` before each of its items; what has an offset is shown with it.
fn listing(alloc: Global, modules: &[ModuleDecl]) -> Result<String, AllocError> {
    let mut out = String::new(alloc);
    for module in modules {
        let name = &module.name;
        write!(out, "/{name}")?;
        match &module.head {
            Head::Names(names) => {
                for Spelled { offset, name } in names.as_slice() {
                    write!(out, " {offset}:{name}")?;
                }
            }
            Head::Ports(ports) => show_ports(&mut out, ports.as_slice())?,
        }
        for item in module.items.as_slice() {
            out.push_str(";")?;
            show_item(&mut out, item)?;
        }
    }
    Ok(out)
}

// Texts and what they declare, or how their fault is told; by hand, offsets counted.
const TEXTS: &[(&str, &str)] = &[
    ("", ""),
    ("module m;endmodule module n ( );endmodule\n", "/m/n"),
    (
        "module m (input wire [03:00] a, b, output \\c[1] ); endmodule",
        "/m in[3:0] 29:a in[3:0] 32:b out 42:c[1]",
    ),
    (
        "module m; assign {y[5], {{y[4:3]}, y[2]}, y[1:0]} = {1'b1, {2'd2, {3'o5}}}, z = a; endmodule",
        "/m; 18:y[5] 26:y[4:3] 35:y[2] 42:y[1:0] = 53:1 60:10 67:101 76:z = 80:a",
    ),
    (
        "module m; not (a, b, c), g (d, 1'h1); and (e, a, 1'b0, b); endmodule",
        "/m; Not - 15:a 18:b of 21:c g 28:d of 31:1; And - 43:e of 46:a 49:0 55:b",
    ),
    (
        "module t (y, \\a.b ); output [1:0] y; supply1 [0:1] s, r; \\reg u (.q({y, s[0]}), .p()), v (); endmodule",
        "/t 10:y 13:a.b; out[1:0] 34:y; Supply1[0:1] s r; reg u .65:q 69:y 72:s[0] .80:p - v",
    ),
    (
        "(**)module(*x*)m (* ) *) (input(* a \n*)a);endmodule",
        "/m in 39:a",
    ),
    (
        "`timescaleX y\nmodule m (\\a\n`celldefine\n, b); endmodule",
        "/m 24:a 41:b",
    ),
    (
        "module m (*);endmodule",
        "byte 10: no netlist goes on like this",
    ),
    (
        "module m (* x ; endmodule",
        "byte 9: no netlist goes on like this",
    ),
    (
        "module m; `resetall\nendmodule",
        "byte 10: no netlist goes on like this",
    ),
    ("module m; /* x", "byte 10: no netlist goes on like this"),
    ("module m", "byte 8: no netlist goes on like this"),
    (
        "module m; module n; endmodule endmodule",
        "byte 10: no netlist goes on like this",
    ),
    (
        "module m; endmodule x",
        "byte 20: no netlist goes on like this",
    ),
    (
        "primitive p",
        "byte 0: primitive begins nothing that a netlist has",
    ),
    (
        "module m; wire a; reg b; endmodule",
        "byte 18: reg begins nothing that a netlist has",
    ),
    (
        "module m (reg a); endmodule",
        "byte 10: no netlist goes on like this",
    ),
    (
        "module m (a, input b); endmodule",
        "byte 13: no netlist goes on like this",
    ),
    (
        "module m; wire a, ; endmodule",
        "byte 18: no netlist goes on like this",
    ),
    (
        "module m; wire [1 0] a; endmodule",
        "byte 18: no netlist goes on like this",
    ),
    (
        "module m; assign y = a[65536]; endmodule",
        "byte 23: no netlist goes on like this",
    ),
    (
        "module m; assign {y, 1'b0} = a; endmodule",
        "byte 21: no netlist goes on like this",
    ),
    (
        "module m; assign {} = a; endmodule",
        "byte 18: no netlist goes on like this",
    ),
    (
        "module m; assign a = {b}}; endmodule",
        "byte 24: no netlist goes on like this",
    ),
    (
        "module m; assign a = {b; endmodule",
        "byte 23: no netlist goes on like this",
    ),
    (
        "module m; xor (a); endmodule",
        "byte 16: no netlist goes on like this",
    ),
    (
        "module m; buf (1'b0, a); endmodule",
        "byte 15: no netlist goes on like this",
    ),
    (
        "module m; buf (a, 1'b0, b); endmodule",
        "byte 22: no netlist goes on like this",
    ),
    (
        "module m; INV u (.A(a),); endmodule",
        "byte 23: no netlist goes on like this",
    ),
    (
        "module m; INV (.A(a)); endmodule",
        "byte 14: no netlist goes on like this",
    ),
];

fn told(alloc: Global, text: &str) -> Result<String, AllocError> {
    match read_modules(alloc, text.as_bytes(), false) {
        Ok(modules) => listing(alloc, modules.as_slice()),
        Err(fault) => format!(in alloc; "{fault}"),
    }
}

#[test]
fn texts_are_declarations_or_faults(rt: HostRuntime) -> Result<(), AllocError> {
    for (text, want) in TEXTS {
        let told = told(rt.alloc(), text)?;
        assert_eq!(rt; told.as_str(), *want, "{text}");
    }
    Ok(())
}
