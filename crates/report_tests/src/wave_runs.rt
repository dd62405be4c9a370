//! The wave of a run, cycle by cycle.
use linked_types::{CellName, Linked, Names, NetName};
use net_model::{Cycle, Design};
use run_views::Violation;
use run_waves::wave;
use sdcv_base::{Name, Seq};
use std::alloc::{AllocError, Global};
use std::process::Abort;

// A register in a scope and a net beside it; no clock has a name. The toggle is in cycle 1, cycle 2 is judged.
const TEXT: &str = "$version sdcv_view $end
$timescale 1ns $end
$scope module sdcv_view $end
$var wire 1 0 clock $end
$var wire 1 1 toggled $end
$var wire 1 2 judged $end
$upscope $end
$scope module top $end
$var wire 1 3 d $end
$scope module u $end
$var reg 1 4 q_reg $end
$upscope $end
$upscope $end
$enddefinitions $end
#0
$dumpvars
10
01
02
03
04
$end
#5
00
#10
10
11
13
#15
00
#20
10
01
12
14
#25
00
#30
";

fn design(alloc: Global) -> Design {
    Design {
        nets: 1,
        gates: Seq::new(alloc),
        regs: Seq::new(alloc),
        inputs: Seq::new(alloc),
        outputs: Seq::new(alloc),
        fixed: Seq::new(alloc),
        resets: Seq::new(alloc),
        reset_len: 0,
    }
}

fn names(alloc: Global) -> Result<Names, AllocError> {
    let cell = CellName {
        name: Name::new(alloc, b"u/q_reg")?,
        reg: Some(0),
        outs: Seq::new(alloc),
        pins: Seq::new(alloc),
    };
    let net = NetName {
        name: Name::new(alloc, b"d")?,
        net: 0,
    };
    let (ins, outs) = (Seq::new(alloc), Seq::new(alloc));
    let cells = Seq::one(alloc, cell)?;
    let nets = Seq::one(alloc, net)?;
    Ok(Names::whole(alloc, cells, ins, outs, nets, None))
}

fn run(alloc: Global) -> Result<Seq<Cycle>, AllocError> {
    let mut run = Seq::new(alloc);
    for (bit, net) in [(false, false), (false, true), (true, true)] {
        run.push(Cycle {
            bits: Seq::one(alloc, bit)?,
            ins: Seq::new(alloc),
            nets: Seq::one(alloc, net)?,
        })?;
    }
    Ok(run)
}

fn linked_design(alloc: Global) -> Result<Linked, AllocError> {
    Ok(Linked {
        design: design(alloc),
        names: names(alloc)?,
    })
}

fn shown(rt: &impl Abort, alloc: Global, violation: &Violation) -> Result<Vec<u8>, AllocError> {
    assert!(rt; violation.toggle < violation.run.len());
    assert!(rt; violation.judged < violation.run.len());
    let linked = linked_design(alloc)?;
    let top = Name::new(alloc, b"top")?;
    wave(alloc, &top, &linked, violation)
}

#[test]
fn a_run_is_shown_with_its_marks(rt: HostRuntime) -> Result<(), AllocError> {
    let violation = Violation {
        run: run(rt.alloc())?,
        toggle: 1,
        judged: 2,
    };
    let text = shown(&rt, rt.alloc(), &violation)?;
    assert_eq!(rt; text.as_slice(), TEXT.as_bytes(), "{TEXT}");
    Ok(())
}
