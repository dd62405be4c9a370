//! What is read, moved and needed of a small design, against lists by hand.
ghost use Rattle.std.specs.Prelude.{IfOk};
ghost use Rattle.net_model.specs.Netlist.{IsSound};
ghost use Rattle.net_model.specs.Fits.{Fits};
ghost use Rattle.frame_unroll.specs.Reading.{IsSubject};

use frame_unroll::{Frames, MovedNets, Subject, Tables, net_lit, pin_lit};
use net_model::PinRef::{GateIn, Net, RegIn};
use net_model::{Design, InvClause, Phase, PinRef, StateLit};
use net_paths::Readers;
use net_samples::Ask::{Either, Hazard, In, To, Via};
use net_samples::Part::{Drives, Holds, Nets, Outputs};
use net_samples::{Ask, Case, Controls, Form, Out, Part, case_of};
use query_model::{Coding, Key, KeyLit};
use sdcv_base::Seq;
use std::alloc::{AllocError, Global};
use std::process::Abort;
use std::slice;

// Inputs on nets 0 and 1, a register that shows its bit on net 2 and the complement on net 3, and gates that read the
// nets 0 and 1, 4 and 2, 1 and 3, on the nets 4, 5 and 6. Each gate gives its first pin.
const DESIGN: &[Part] = &[
    Nets(7, &[0, 1]),
    Outputs(&[6]),
    Drives(Form::Pin(0), &[0, 1], 4),
    Drives(Form::Pin(0), &[4, 2], 5),
    Drives(Form::Pin(0), &[1, 3], 6),
    Holds(
        Form::Pin(0),
        Controls(None, None, false),
        &[5],
        &[Out::Q(2), Out::Qn(3)],
    ),
];

// A query about the design, which is sound, and a claim to its register, which fits it.
fn case(rt: &impl Abort, alloc: Global, query: &[Ask]) -> Result<Case, AllocError>
    ensures sound { IfOk result (λ case. IsSound case.design) }
    ensures fits { IfOk result (λ case. Fits case.design case.claim) }
{
    let case = case_of(alloc, DESIGN, query)?;
    assert!(rt; case.design.check(alloc).is_ok());
    assert!(rt; case.claim.fits(&case.design));
    Ok(case)
}

const O: bool = false;

const I: bool = true;

/// A claim to the register, and which nets are moved in the last row.
struct Moved(&'static [Ask], &'static [bool]);

// The pin by which gate 1 reads net 4.
const HELD: Ask = Via(GateIn(1, 0));

// By hand: what is moved came through a pin of each set in order.
const MOVED: &[Moved] = &[
    Moved(&[To(0), In(0)], &[I, O, O, O, I, I, O]),
    // Through the second pins of two gates, on which their functions do not depend.
    Moved(&[To(0)], &[O, O, I, I, O, I, I]),
    Moved(&[To(0), In(0), HELD], &[O, O, O, O, O, I, O]),
    // One pin may be that of two sets.
    Moved(&[To(0), In(0), HELD, HELD], &[O, O, O, O, O, I, O]),
    Moved(&[To(0), In(0), Via(Net(0))], &[I, O, O, O, I, I, O]),
    Moved(&[To(0), In(0), Via(Net(4))], &[O, O, O, O, I, I, O]),
    Moved(
        &[To(0), In(0), Via(Net(4)), Via(Net(5))],
        &[O, O, O, O, O, I, O],
    ),
    Moved(
        &[To(0), In(0), Via(Net(5)), Via(Net(4))],
        &[O, O, O, O, O, O, O],
    ),
];

// The nets that are moved after all sets of the claim.
fn last_moved(alloc: Global, case: &Case) -> Result<Seq<bool>, AllocError>
    requires sound { IsSound case.now.design }
    requires fits { Fits case.now.design case.now.claim }
{
    let readers = Readers::of(alloc, &case.design)?;
    let moved = MovedNets::of(alloc, &case.design, &case.claim, &readers)?;
    let last = case.claim.through.len();
    let mut row = Seq::new(alloc);
    for net in 0..case.design.nets {
        row.push(moved.has(last, net))?;
    }
    Ok(row)
}

fn moved_in(rt: &impl Abort, alloc: Global, row: &Moved) -> Result<Seq<bool>, AllocError> {
    let case = case(rt, alloc, row.0)?;
    last_moved(alloc, &case)
}

#[test]
fn nets_are_moved_through_the_sets_in_order(rt: HostRuntime) -> Result<(), AllocError> {
    for (place, row) in MOVED.iter().enumerate() {
        let moved = moved_in(&rt, rt.alloc(), row)?;
        assert!(rt; moved.as_slice() == row.1, "case {place}");
    }
    Ok(())
}

/// Layer, rail and point of a key in cycle 3.
#[derive(Clone, Copy)]
struct At(usize, usize, usize);

fn key(at: At) -> Key {
    let At(layer, rail, point) = at;
    Key {
        cycle: 3,
        layer,
        rail,
        point,
    }
}

// The queries of the rows: plain or where hazards count, through the driver pin of net 5 or the pin by which its gate
// reads net 2.
const PLAIN: &[Ask] = &[To(0), Either(Net(5), GateIn(1, 1))];

const HAZY: &[Ask] = &[To(0), Either(Net(5), GateIn(1, 1)), Hazard];

/// A query, the pin if any, layer, rail and net; the layer, rail and point that are read, and whether as they are.
struct Read(&'static [Ask], Option<PinRef>, At, At, bool);

// By hand. The register is the start. Its bit is point 7.
const READS: &[Read] = &[
    Read(PLAIN, None, At(0, 0, 0), At(0, 0, 0), true),
    Read(PLAIN, None, At(0, 0, 2), At(0, 0, 7), true),
    Read(PLAIN, None, At(0, 0, 3), At(0, 0, 7), false),
    Read(HAZY, None, At(0, 1, 3), At(0, 0, 7), true),
    Read(HAZY, None, At(1, 1, 0), At(0, 0, 0), false),
    // The start's nets are flipped, or where hazards count have keys of their own.
    Read(PLAIN, None, At(1, 0, 2), At(0, 0, 7), false),
    Read(PLAIN, None, At(1, 0, 3), At(0, 0, 7), true),
    Read(HAZY, None, At(1, 1, 2), At(1, 1, 2), true),
    Read(PLAIN, None, At(1, 0, 5), At(1, 0, 5), true),
    Read(HAZY, None, At(2, 1, 5), At(1, 1, 5), true),
    Read(PLAIN, None, At(2, 0, 2), At(0, 0, 7), true),
    Read(PLAIN, None, At(2, 0, 6), At(0, 0, 6), true),
    Read(PLAIN, Some(GateIn(1, 1)), At(2, 0, 2), At(0, 0, 7), false),
    Read(PLAIN, Some(GateIn(1, 0)), At(2, 0, 4), At(0, 0, 4), true),
    Read(PLAIN, Some(RegIn(0, 0)), At(2, 0, 5), At(1, 0, 5), true),
];

// What the pin reads, or where there is none the net.
fn subject_lit(rt: &impl Abort, subject: &Subject, row: &Read) -> KeyLit
    requires subject { IsSubject subject.now }
{
    let key = key(row.2);
    assert!(rt; key.point < subject.design.nets);
    assert!(rt; key.layer <= subject.claim.through.len() + 1);
    match row.1 {
        None => net_lit(subject, key),
        Some(pin) => pin_lit(subject, pin, key),
    }
}

// The same, of a case.
fn case_lit(rt: &impl Abort, alloc: Global, case: &Case, row: &Read) -> Result<KeyLit, AllocError>
    requires sound { IsSound case.now.design }
    requires fits { Fits case.now.design case.now.claim }
{
    let tables = Tables::of(alloc, &case.design, Coding::Rows)?;
    let subject = Subject::of(alloc, &tables, &case.claim)?;
    Ok(subject_lit(rt, &subject, row))
}

// The same, of the query of a row.
fn read_lit(rt: &impl Abort, alloc: Global, row: &Read) -> Result<KeyLit, AllocError> {
    let case = case(rt, alloc, row.0)?;
    case_lit(rt, alloc, &case, row)
}

#[test]
fn literals_are_those_of_layers_and_rails(rt: HostRuntime) -> Result<(), AllocError> {
    for (place, row) in READS.iter().enumerate() {
        let found = read_lit(&rt, rt.alloc(), row)?;
        let (key, positive) = (key(row.3), row.4);
        assert_eq!(rt; found, KeyLit { key, positive }, "case {place}");
    }
    Ok(())
}

// The variables are those of these keys on rail 0, in order, each with its cycle, layer and point.
fn check_keys(rt: &impl Abort, frames: &Frames, keys: &[(usize, usize, usize)]) {
    let mut var = 0_u32;
    for (cycle, layer, point) in keys {
        let (cycle, layer, rail, point) = (*cycle, *layer, 0, *point);
        let key = Key {
            cycle,
            layer,
            rail,
            point,
        };
        var = var.wrapping_add(1);
        assert_eq!(rt; frames.number(&key), Some(var));
        assert_eq!(rt; frames.key(var), Some(key));
    }
    assert_eq!(rt; frames.vars(), var);
}

// By hand: the false path from the first input to the register, in a stretch of two cycles. Point 8 is in layer 0 that
// the start toggles and in layer 1 the late capture, point 10 that this differs, and point 28 that the cycle is bad.
const CLAIM_KEYS: &[(usize, usize, usize)] = &[
    (0, 0, 0),
    (0, 0, 1),
    (0, 0, 4),
    (0, 0, 5),
    (0, 0, 7),
    (1, 0, 0),
    (1, 0, 1),
    (1, 0, 4),
    (1, 0, 5),
    (1, 0, 7),
    (1, 0, 8),
    (1, 0, 10),
    (1, 0, 28),
    (1, 1, 4),
    (1, 1, 5),
    (1, 1, 8),
    (2, 0, 7),
];

// By hand: by prime cubes the second pins of the gates are not read, so that the bit in the second cycle is of no account.
const CLAIM_PRIME_KEYS: &[(usize, usize, usize)] = &[
    (0, 0, 0),
    (1, 0, 0),
    (1, 0, 4),
    (1, 0, 5),
    (1, 0, 8),
    (1, 0, 10),
    (1, 0, 28),
    (1, 1, 4),
    (1, 1, 5),
    (1, 1, 8),
    (2, 0, 7),
];

// By hand: the register's bit in the second cycle, and all that its capture in the first one reads. The clause is kept in
// the first cycle, where its bit is read anyway.
const CLAUSE_KEYS: &[(usize, usize, usize)] = &[
    (0, 0, 0),
    (0, 0, 1),
    (0, 0, 4),
    (0, 0, 5),
    (0, 0, 7),
    (1, 0, 7),
];

// By hand: by prime cubes the capture reads the first input alone.
const CLAUSE_PRIME_KEYS: &[(usize, usize, usize)] = &[
    (0, 0, 0),
    (0, 0, 4),
    (0, 0, 5),
    (0, 0, 7),
    (1, 0, 7),
];

// Whether the register's bit is 1 fails, and is kept, in a stretch.
fn frames_of_clause(
    rt: &impl Abort,
    alloc: Global,
    design: &Design,
    coding: Coding,
) -> Result<Frames, AllocError>
    requires sound { IsSound design.now }
{
    assert!(rt; design.regs.len() == 1);
    let (reg, value) = (0, true);
    let lits = Seq::one(alloc, StateLit { reg, value })?;
    let clause = InvClause { lits };
    let tables = Tables::of(alloc, design, coding)?;
    Frames::of_invariant(alloc, &tables, slice::from_ref(&clause), 0, Phase::Step, 1)
}

// The claim is violated in a stretch.
fn frames_of_claim(alloc: Global, case: &Case, coding: Coding) -> Result<Frames, AllocError>
    requires sound { IsSound case.now.design }
    requires fits { Fits case.now.design case.now.claim }
{
    let tables = Tables::of(alloc, &case.design, coding)?;
    Frames::of_claim(alloc, &tables, &case.claim, Phase::Step, 0, &[])
}

/// A coding, and the keys of the claim and of the clause in it.
struct Keyed(
    Coding,
    &'static [(usize, usize, usize)],
    &'static [(usize, usize, usize)],
);

const KEYED: &[Keyed] = &[
    Keyed(Coding::Rows, CLAIM_KEYS, CLAUSE_KEYS),
    Keyed(Coding::Primes, CLAIM_PRIME_KEYS, CLAUSE_PRIME_KEYS),
];

fn check_keyed(rt: &impl Abort, alloc: Global, case: &Case, row: &Keyed) -> Result<(), AllocError>
    requires sound { IsSound case.now.design }
    requires fits { Fits case.now.design case.now.claim }
{
    let of_claim = frames_of_claim(alloc, case, row.0)?;
    check_keys(rt, &of_claim, row.1);
    let of_clause = frames_of_clause(rt, alloc, &case.design, row.0)?;
    check_keys(rt, &of_clause, row.2);
    Ok(())
}

#[test]
fn needed_keys_are_numbered_in_order(rt: HostRuntime) -> Result<(), AllocError> {
    let case = case(&rt, rt.alloc(), &[In(0), To(0)])?;
    for row in KEYED {
        check_keyed(&rt, rt.alloc(), &case, row)?;
    }
    Ok(())
}
