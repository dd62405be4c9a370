//! Designs and claims by hand, and why some are refused.
use net_model::{Claim, Design, DesignFault, Edge, End, Kind, PinRef, PinSet, Start};
use net_samples::Form::{Not, Pin, Xor};
use net_samples::Part::{Drives, Holds, Nets, Outputs, Reset, Zero};
use net_samples::{Controls, Out, Part, design};
use sdcv_base::Seq;
use std::alloc::{AllocError, Global};

const CONTROLS: Controls = Controls(Some(Pin(1)), Some(Pin(2)), false);

// Net 0 is an input, net 1 a gate's output and an output port, and net 2 a register's output.
const SMALL: &[Part] = &[
    Nets(3, &[0]),
    Outputs(&[1]),
    Drives(Not(0), &[0], 1),
    Holds(Xor(0, 3), CONTROLS, &[0, 0, 0], &[Out::Q(2)]),
];

/// A claim by its kind, start, end and through sets, each of one pin, and whether it fits the small design.
struct Fitting(Kind, Start, End, &'static [PinRef], bool);

const REG: Start = Start::Reg(0);

const OUT: End = End::Output(0);

const FITTING: &[Fitting] = &[
    Fitting(Kind::False, REG, OUT, &[PinRef::Net(2)], true),
    Fitting(
        Kind::Multi(1),
        Start::Input(0),
        End::Reg(0),
        &[PinRef::GateIn(0, 0)],
        true,
    ),
    Fitting(Kind::Multi(16), REG, OUT, &[PinRef::RegIn(0, 2)], true),
    Fitting(Kind::False, REG, OUT, &[PinRef::OutPort(0); 4], true),
    Fitting(Kind::False, REG, OUT, &[PinRef::OutPort(0); 5], false),
    Fitting(Kind::Multi(0), REG, OUT, &[], false),
    Fitting(Kind::Multi(17), REG, OUT, &[], false),
    Fitting(Kind::False, Start::Reg(1), OUT, &[], false),
    Fitting(Kind::False, Start::Input(1), OUT, &[], false),
    Fitting(Kind::False, REG, End::Reg(1), &[], false),
    Fitting(Kind::False, REG, End::Output(1), &[], false),
    Fitting(Kind::False, REG, OUT, &[PinRef::Net(3)], false),
    Fitting(Kind::False, REG, OUT, &[PinRef::GateIn(0, 1)], false),
    Fitting(Kind::False, REG, OUT, &[PinRef::GateIn(1, 0)], false),
    // The register's own bit is no pin.
    Fitting(Kind::False, REG, OUT, &[PinRef::RegIn(0, 3)], false),
    Fitting(Kind::False, REG, OUT, &[PinRef::OutPort(1)], false),
];

fn claim(alloc: Global, row: &Fitting) -> Result<Claim, AllocError> {
    let mut through = Seq::new(alloc);
    for pin in row.3 {
        through.push(PinSet::of(alloc, &[*pin])?)?;
    }
    Ok(Claim {
        kind: row.0,
        edge: Edge::Any,
        lag: 0,
        hazard: false,
        early: false,
        start: row.1,
        end: row.2,
        through,
    })
}

fn fits(alloc: Global, design: &Design, row: &Fitting) -> Result<bool, AllocError> {
    let claim = claim(alloc, row)?;
    Ok(claim.fits(design))
}

#[test]
fn claims_fit_whose_places_are_those_of_the_design(rt: HostRuntime) -> Result<(), AllocError> {
    let design = design(rt.alloc(), SMALL)?;
    for (place, row) in FITTING.iter().enumerate() {
        let found = fits(rt.alloc(), &design, row)?;
        assert_eq!(rt; found, row.4, "claim {place}");
    }
    Ok(())
}

/// A claim's kind and lag, how many captures it judges, and whether it fits the small design.
struct Judged(Kind, u8, usize, bool);

const JUDGED: &[Judged] = &[
    Judged(Kind::False, 0, 1, true),
    Judged(Kind::False, 8, 9, true),
    Judged(Kind::False, 9, 10, false),
    Judged(Kind::Multi(1), 0, 0, true),
    Judged(Kind::Multi(2), 0, 1, true),
    Judged(Kind::Multi(16), 0, 15, true),
    Judged(Kind::Multi(2), 1, 1, false),
];

// Captures counted by hand: a false path has one for each cycle of its lag besides the first, a multicycle path none.
#[test]
fn a_lag_is_one_of_false_paths_alone(rt: HostRuntime) -> Result<(), AllocError> {
    let design = design(rt.alloc(), SMALL)?;
    for (place, row) in JUDGED.iter().enumerate() {
        let claim = Claim {
            kind: row.0,
            edge: Edge::Rise,
            lag: row.1,
            hazard: false,
            early: false,
            start: REG,
            end: OUT,
            through: Seq::new(rt.alloc()),
        };
        assert_eq!(rt; claim.judged_count(), row.2, "claim {place}");
        assert_eq!(rt; claim.fits(&design), row.3, "claim {place}");
    }
    Ok(())
}

/// A design, its reset cycles, and what the check says of it.
struct Checked(&'static [Part], usize, Result<(), DesignFault>);

const CHECKED: &[Checked] = &[
    Checked(SMALL, 0, Ok(())),
    Checked(
        &[Nets(2, &[0]), Zero(0), Drives(Not(0), &[0], 1)],
        64,
        Ok(()),
    ),
    // The gate reads its own output.
    Checked(
        &[Nets(1, &[]), Drives(Not(0), &[0], 0)],
        0,
        Err(DesignFault::Order(0)),
    ),
    Checked(
        &[Nets(1, &[0]), Drives(Not(0), &[0], 0)],
        0,
        Err(DesignFault::ManyDrivers(0)),
    ),
    Checked(
        &[Nets(3, &[0]), Drives(Not(0), &[0], 1)],
        0,
        Err(DesignFault::Undriven(2)),
    ),
    Checked(
        &[Nets(2, &[0]), Drives(Not(0), &[], 1)],
        0,
        Err(DesignFault::PlaceOutOfRange(0)),
    ),
    Checked(
        &[Nets(2, &[0]), Drives(Not(0), &[0], 2)],
        0,
        Err(DesignFault::PlaceOutOfRange(2)),
    ),
    Checked(
        &[Nets(1, &[]), Zero(0), Drives(Not(0), &[0], 0)],
        0,
        Err(DesignFault::PlaceOutOfRange(0)),
    ),
    Checked(
        &[
            Nets(2, &[0]),
            Zero(0),
            Reset(0, true),
            Drives(Not(0), &[0], 1),
        ],
        0,
        Err(DesignFault::Twice(0)),
    ),
    Checked(
        &[Nets(2, &[0]), Drives(Not(0), &[0], 1)],
        65,
        Err(DesignFault::Limit(65)),
    ),
    Checked(
        &[Nets(2, &[0]), Drives(Not(0), &[0, 0, 0, 0, 0, 0, 0], 1)],
        0,
        Err(DesignFault::Limit(7)),
    ),
];

#[test]
fn a_design_is_refused_for_its_fault(rt: HostRuntime) -> Result<(), AllocError> {
    for (place, Checked(parts, reset_len, want)) in CHECKED.iter().enumerate() {
        let mut design = design(rt.alloc(), parts)?;
        design.reset_len = *reset_len;
        assert_eq!(rt; design.check(rt.alloc()), *want, "design {place}");
    }
    Ok(())
}

// As the fault's own words say it.
const WORDS: &[(DesignFault, &str)] = &[
    (
        DesignFault::PlaceOutOfRange(3),
        "the number 3 is out of range",
    ),
    (
        DesignFault::ManyDrivers(4),
        "net 4 has more than one driver",
    ),
    (DesignFault::Undriven(5), "net 5 has no driver"),
    (
        DesignFault::Order(6),
        "gate 6 reads a net that no input, register or earlier gate drives",
    ),
    (DesignFault::Twice(7), "input 7 is fixed or reset twice"),
    (
        DesignFault::Limit(65),
        "a number is above its limit: 65 or more",
    ),
    (DesignFault::Memory, "out of memory"),
];

#[test]
fn each_fault_has_its_words(rt: HostRuntime) -> Result<(), AllocError> {
    for (fault, want) in WORDS {
        assert_eq!(rt; format!(in rt.alloc(); "{fault}")?.as_str(), *want);
    }
    Ok(())
}
