//! Waves of named bits, beside what IEEE 1364-2005 says of a value change dump.
use sdcv_base::{Name, Seq};
use std::alloc::{AllocError, Global};
use vcd_text::{Wave, vcd_text};
use wave_signals::{BitKind, NamedBit, Signal, ordered};

// A bit by its full name, and its values, cycle by cycle.
type Bit = (BitKind, &'static str, &'static [bool]);

const WIRE: BitKind = BitKind::Wire;

const REG: BitKind = BitKind::Reg;

// Scopes that are entered and left, one of which begins as another does; a port that is declared `[0:1]`; values that stay.
const SCOPES: &[Bit] = &[
    (WIRE, "a", &[false, true]),
    (WIRE, "u/x[0]", &[true, true]),
    (WIRE, "u/x[1]", &[false, false]),
    (WIRE, "u-b/y", &[false, false]),
    (WIRE, "u/v/z", &[true, false]),
    (REG, "u/q_reg[0]", &[false, true]),
    (REG, "u/q_reg[1]", &[true, true]),
];

const SCOPES_TEXT: &str = "$version sdcv_view $end
$timescale 1ns $end
$scope module sdcv_view $end
$var wire 1 0 ck $end
$upscope $end
$scope module top $end
$var wire 1 1 a $end
$scope module u $end
$var wire 2 2 x [0:1] $end
$var reg 2 3 q_reg [1:0] $end
$scope module v $end
$var wire 1 4 z $end
$upscope $end
$upscope $end
$scope module u-b $end
$var wire 1 5 y $end
$upscope $end
$upscope $end
$enddefinitions $end
#0
$dumpvars
10
01
b10 2
b10 3
14
05
$end
#5
00
#10
10
11
b11 3
04
#15
00
#20
";

// An index that is left out, a bus from its highest bit down, a name that is no word, a net and a register of one name, and
// registers that are shown by one name.
const NAMES: &[Bit] = &[
    (WIRE, "x[0]", &[true]),
    (WIRE, "x[1]", &[false]),
    (WIRE, "x[3]", &[true]),
    (WIRE, "y[2]", &[true]),
    (WIRE, "y[1]", &[true]),
    (WIRE, "y[0]", &[false]),
    (WIRE, "$a b", &[false]),
    (WIRE, "n", &[true]),
    (REG, "x_reg[3]", &[false]),
    (REG, "x[3]_reg", &[true]),
    (REG, "n", &[false]),
];

const NAMES_TEXT: &str = "$version sdcv_view $end
$timescale 1ns $end
$scope module sdcv_view $end
$var wire 1 0 ck $end
$upscope $end
$scope module top $end
$var wire 2 1 x [0:1] $end
$var wire 1 2 x [3] $end
$var wire 3 3 y [2:0] $end
$var wire 1 4 _a_b $end
$var wire 1 5 n $end
$var reg 1 6 n $end
$var reg 1 7 x_reg [3] $end
$var reg 1 8 x_reg [3] $end
$upscope $end
$enddefinitions $end
#0
$dumpvars
10
b10 1
12
b110 3
04
15
06
17
08
$end
#5
00
#10
";

fn bit(alloc: Global, told: &Bit) -> Result<NamedBit, AllocError> {
    let (kind, name, values) = *told;
    Ok(NamedBit {
        kind,
        name: Name::new(alloc, name.as_bytes())?,
        values: Seq::of(alloc, values)?,
    })
}

fn signals(alloc: Global, told: &[Bit]) -> Result<Vec<Signal>, AllocError> {
    let mut bits = Vec::new(alloc);
    for one in told {
        bits.push(bit(alloc, one)?)?;
    }
    ordered(alloc, bits)
}

fn text(alloc: Global, told: &[Bit], cycles: usize) -> Result<Vec<u8>, AllocError> {
    let wave = Wave {
        clock: Name::new(alloc, b"ck")?,
        top: Name::new(alloc, b"top")?,
        marks: Seq::new(alloc),
        signals: Seq::from_vec(signals(alloc, told)?),
        cycles,
    };
    vcd_text(alloc, &wave)
}

// Bits, how many cycles, and the text.
const TOLD: &[(&[Bit], usize, &str)] = &[(SCOPES, 2, SCOPES_TEXT), (NAMES, 1, NAMES_TEXT)];

#[test]
fn bits_are_told_scope_by_scope_and_where_they_change(rt: HostRuntime) -> Result<(), AllocError> {
    for (told, cycles, want) in TOLD {
        let got = text(rt.alloc(), told, *cycles)?;
        assert_eq!(rt; got.as_slice(), want.as_bytes(), "{want}");
    }
    Ok(())
}
