use std::alloc::{AllocError, Global};
use verilog_net::{Conn, Dir, Item, Module, Port, Wire, read_verilog};

fn show_port(out: &mut String, port: &Port) -> Result<(), AllocError> {
    out.push_str(match port.dir {
        Dir::Input => " in ",
        Dir::Output => " out ",
        Dir::Inout => " inout ",
    })?;
    let name = &port.name;
    write!(out, "{name}")?;
    for bit in port.bits.as_slice() {
        write!(out, " {bit}")?;
    }
    Ok(())
}

fn show_conn(out: &mut String, conn: &Conn) -> Result<(), AllocError> {
    let pin = &conn.pin;
    write!(out, " {pin}")?;
    let Some(wires) = &conn.wires else {
        return out.push_str("=-");
    };
    for wire in wires.as_slice() {
        match wire {
            Wire::Const(bit) => out.push_str(if *bit { "='1" } else { "='0" })?,
            Wire::Net(net) => write!(out, "={net}")?,
        }
    }
    Ok(())
}

fn show_item(out: &mut String, item: &Item) -> Result<(), AllocError> {
    if let Item::Inst { cell, name, conns } = item {
        write!(out, "; {cell} {name}")?;
        for conn in conns.as_slice() {
            show_conn(out, conn)?;
        }
    }
    Ok(())
}

// A `/` before each module, with its ports and their nets, and a `;` before each of its instances.
fn show_module(out: &mut String, module: &Module) -> Result<(), AllocError> {
    let name = &module.name;
    write!(out, "/{name}")?;
    for port in module.ports.as_slice() {
        show_port(out, port)?;
    }
    for item in module.items.as_slice() {
        show_item(out, item)?;
    }
    Ok(())
}

fn told(alloc: Global, text: &str, wide: bool) -> Result<String, AllocError> {
    match read_verilog(alloc, text.as_bytes(), wide) {
        Ok(source) => {
            let mut out = String::new(alloc);
            for module in source.modules.as_slice() {
                show_module(&mut out, module)?;
            }
            Ok(out)
        }
        Err(fault) => format!(in alloc; "{fault}"),
    }
}

// Texts, each with what is told of it where it is read as ever, and where it is read wide. Offsets are counted by hand.
const TEXTS: &[(&str, &str, &str)] = &[
    (
        "module m (input q); RAM u (.A(q), .B()); endmodule",
        "/m in q 0; RAM u A=0 B=-",
        "/m in q 0; RAM u A=0 B=-",
    ),
    (
        "module m (input [1:0] q); RAM u (.A(q)); endmodule",
        "byte 33: the two sides differ in width",
        "/m in q 0 1; RAM u A[1]=0 A[0]=1",
    ),
    (
        "module m (input [0:1] q); RAM u (.A({q[1], 2'd2})); endmodule",
        "byte 33: the two sides differ in width",
        "/m in q 0 1; RAM u A[2]=1 A[1]='1 A[0]='0",
    ),
    (
        "module m (input [1:0] q); RAM u (.\\A[0] (), .A(q)); endmodule",
        "byte 44: the two sides differ in width",
        "`A[0]` is declared twice",
    ),
    (
        "module m (input a); RAM u (.A(a), .A()); endmodule",
        "`A` is declared twice",
        "`A` is declared twice",
    ),
    (
        "module m (input [1:0] q); s u (.p(q)); endmodule module s (input p); endmodule",
        "byte 31: the two sides differ in width",
        "byte 31: the two sides differ in width",
    ),
    (
        "module m (inout v); FILL f (.V(v)); endmodule",
        "byte 10: no netlist goes on like this",
        "/m inout v 0; FILL f V=0",
    ),
    (
        "module m (input a, inout [1:0] v, w); endmodule",
        "byte 19: no netlist goes on like this",
        "/m in a 0 inout v 1 2 inout w 3 4",
    ),
    (
        "module m (v); inout wire v; endmodule",
        "byte 14: `inout` is no part of a netlist",
        "/m inout v 0",
    ),
    (
        "inout",
        "byte 0: `inout` is no part of a netlist",
        "byte 0: no netlist goes on like this",
    ),
    (
        "module inout; endmodule",
        "byte 7: no netlist goes on like this",
        "byte 7: no netlist goes on like this",
    ),
];

#[test]
fn a_wide_netlist_has_inout_ports_and_cells_with_buses(rt: HostRuntime) -> Result<(), AllocError> {
    for (text, narrow, wide) in TEXTS {
        let as_ever = told(rt.alloc(), text, false)?;
        assert_eq!(rt; as_ever.as_str(), *narrow, "{text}");
        let as_wide = told(rt.alloc(), text, true)?;
        assert_eq!(rt; as_wide.as_str(), *wide, "wide: {text}");
    }
    Ok(())
}
