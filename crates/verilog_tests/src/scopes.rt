use std::alloc::{AllocError, Global};
use verilog_scope::Scope;
use verilog_syntax::{ModuleDecl, read_modules};
use verilog_words::SyntaxFault;

fn shown(alloc: Global, scope: &Scope) -> Result<String, AllocError> {
    let mut text = String::new(alloc);
    let names = scope.names.names(alloc)?;
    for name in names.as_slice() {
        let run = scope.bits(name);
        let first = run.first;
        let count = run.count;
        write!(text, " {name} {first}+{count}")?;
    }
    Ok(text)
}

fn told(alloc: Global, decl: &ModuleDecl) -> Result<String, AllocError> {
    match Scope::of(alloc, decl) {
        Ok(scope) => shown(alloc, &scope),
        Err(fault) => format!(in alloc; "{fault}"),
    }
}

// A module in each text, and its names with the number of the first net of each and how many they are, or how its fault is
// told; by hand, offsets counted.
const MODULES: &[(&str, &str)] = &[
    (
        "module m (input [2:0] a, b, output [0:1] y); wire [3:3] n; endmodule",
        " a 0+3 b 3+3 y 6+2 n 8+1",
    ),
    (
        "module m (y); INV u (.A(n), .Y(y)); buf (k, n[1]); wire [1:0] n; output y; wire y; endmodule",
        " y 0+1 n 1+2 k 3+1",
    ),
    ("module m; assign y = {q, y}; endmodule", " y 0+1 q 1+1"),
    (
        "module m (a, b, a); input a, b; endmodule",
        "`a` is declared twice",
    ),
    (
        "module m (a); input a; output a; endmodule",
        "`a` is declared twice",
    ),
    (
        "module m (input a, output a); endmodule",
        "`a` is declared twice",
    ),
    (
        "module m; wire n; wire n; endmodule",
        "`n` is declared twice",
    ),
    (
        "module m (input [1:0] a); wire [0:1] a; endmodule",
        "`a` is declared twice",
    ),
    (
        "module m (a); supply1 a; output a; endmodule",
        "`a` is declared twice",
    ),
    (
        "module m; INV u (); buf u (a, b); endmodule",
        "`u` is declared twice",
    ),
    (
        "module m (input a); input a; endmodule",
        "byte 26: no netlist goes on like this",
    ),
    (
        "module m; input a; endmodule",
        "byte 16: no netlist goes on like this",
    ),
];

// The modules of a text, one after the other.
fn told_text(alloc: Global, text: &str) -> Result<String, SyntaxFault> {
    let decls = read_modules(alloc, text.as_bytes(), false)?;
    let mut all = String::new(alloc);
    for decl in decls.as_slice() {
        let told = told(alloc, decl)?;
        all.push_str(&told)?;
    }
    Ok(all)
}

#[test]
fn names_of_a_module_have_their_nets(rt: HostRuntime) -> Result<(), SyntaxFault> {
    for (text, want) in MODULES {
        let told = told_text(rt.alloc(), text)?;
        assert_eq!(rt; told.as_str(), *want, "{text}");
    }
    Ok(())
}
