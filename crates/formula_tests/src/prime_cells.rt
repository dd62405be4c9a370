//! The prime cubes of cells, by hand.
//!
//! A cube is a mark for each place, place 0 first, `0`, `1` or `X` where it fixes nothing, and after a colon the function's value.
ghost use Rattle.std.specs.Prelude.{◌<◌, IfOk};
ghost use Rattle.net_model.specs.Form.{IsOver};

use frame_unroll::counts;
use net_model::{Func, Tern};
use prime_cubes::{Cell, cell_of, primes};
use query_model::{Coding, Cube};
use sdcv_base::Seq;
use std::alloc::{AllocError, Global};
use std::process::Abort;

/// A function as a sum of products, its prime cubes in their order, and the places on which it depends.
struct Row {
    name: &'static str,
    places: usize,
    products: &'static [&'static str],
    primes: &'static str,
    counts: &'static [bool],
}

const ROWS: &[Row] = &[
    Row {
        name: "AND2",
        places: 2,
        products: &["11"],
        primes: "X0:0 11:1 0X:0",
        counts: &[true, true],
    },
    Row {
        name: "AND4",
        places: 4,
        products: &["1111"],
        primes: "XXX0:0 1111:1 XX0X:0 X0XX:0 0XXX:0",
        counts: &[true, true, true, true],
    },
    // Place 2 chooses place 1 over place 0; the cubes without it are the consensus of the two others.
    Row {
        name: "MUX2",
        places: 3,
        products: &["1X0", "X11"],
        primes: "0X0:0 1X0:1 X01:0 X11:1 00X:0 11X:1",
        counts: &[true, true, true],
    },
    Row {
        name: "AOI21",
        places: 3,
        products: &["0X0", "X00"],
        primes: "X00:1 0X0:1 XX1:0 11X:0",
        counts: &[true, true, true],
    },
    Row {
        name: "XOR2",
        places: 2,
        products: &["10", "01"],
        primes: "00:0 10:1 01:1 11:0",
        counts: &[true, true],
    },
    Row {
        name: "majority",
        places: 3,
        products: &["11X", "X11", "1X1"],
        primes: "X00:0 0X0:0 X11:1 1X1:1 00X:0 11X:1",
        counts: &[true, true, true],
    },
    Row {
        name: "TIELO",
        places: 0,
        products: &[],
        primes: ":0",
        counts: &[],
    },
    Row {
        name: "constant over two places",
        places: 2,
        products: &["1X", "0X"],
        primes: "XX:1",
        counts: &[false, false],
    },
    Row {
        name: "mentions place 1, and does not depend on it",
        places: 3,
        products: &["11", "10"],
        primes: "0XX:0 1XX:1",
        counts: &[true, false, false],
    },
];

/// A place with its mark: itself, its complement, or nothing.
fn literal(alloc: Global, mark: u8, place: usize, places: usize) -> Result<Func, AllocError>
    requires { place < places }
    ensures { IfOk result (λ f. IsOver places f) }
{
    match mark {
        b'0' => Func::not(alloc, Func::pin(place)),
        b'1' => Ok(Func::pin(place)),
        _ => Ok(Func::one()),
    }
}

/// The conjunction of the places with these marks.
fn product(alloc: Global, marks: &[u8], places: usize) -> Result<Func, AllocError>
    ensures { IfOk result (λ f. IsOver places f) }
{
    let mut func = Func::one();
    for place in 0..marks.len().min(places) {
        let factor = literal(alloc, marks[place], place, places)?;
        func = Func::and(alloc, func, factor)?;
    }
    Ok(func)
}

/// The disjunction of products.
fn sum(alloc: Global, products: &[&'static str], places: usize) -> Result<Func, AllocError>
    ensures { IfOk result (λ f. IsOver places f) }
{
    let mut func = Func::zero();
    for marks in products {
        let term = product(alloc, marks.as_bytes(), places)?;
        func = Func::or(alloc, func, term)?;
    }
    Ok(func)
}

/// Cubes as text.
fn shown(alloc: Global, cubes: &[Cube]) -> Result<String, AllocError> {
    let mut text = String::new(alloc);
    for cube in cubes {
        if !text.is_empty() {
            text.push(' ')?;
        }
        for tern in cube.fixed.as_slice() {
            text.push(match tern {
                Tern::Zero => '0',
                Tern::One => '1',
                Tern::Unknown => 'X',
            })?;
        }
        text.push_str(if cube.value { ":1" } else { ":0" })?;
    }
    Ok(text)
}

fn found_primes(alloc: Global, row: &Row) -> Result<String, AllocError> {
    let places = row.places.min(7);
    let func = sum(alloc, row.products, places)?;
    let found = primes(alloc, &func, places)?;
    shown(alloc, found.as_slice())
}

#[test]
fn prime_cubes_are_those_by_hand(rt: HostRuntime) -> Result<(), AllocError> {
    for row in ROWS {
        let found = found_primes(rt.alloc(), row)?;
        assert_eq!(rt; found.as_str(), row.primes, "{}", row.name);
    }
    Ok(())
}

// The marks of the places of a row by a coding.
fn counted(alloc: Global, row: &Row, coding: Coding) -> Result<Seq<bool>, AllocError> {
    let places = row.places.min(7);
    let func = sum(alloc, row.products, places)?;
    counts(alloc, &func, places, coding)
}

#[test]
fn a_place_counts_by_rows_and_where_the_function_depends_on_it(
    rt: HostRuntime,
) -> Result<(), AllocError> {
    for row in ROWS {
        let by_rows = counted(rt.alloc(), row, Coding::Rows)?;
        assert_eq!(rt; by_rows.len(), row.counts.len(), "{}", row.name);
        assert!(rt;
            by_rows.as_slice().iter().all(|count| *count),
            "{}",
            row.name
        );
        let by_primes = counted(rt.alloc(), row, Coding::Primes)?;
        assert!(rt; by_primes.as_slice() == row.counts, "{}", row.name);
    }
    Ok(())
}

/// A coding, and the covering and the settling cubes of a conjunction.
struct Coded(Coding, &'static str, &'static str);

// By rows a conjunction has its four rows and the six cubes on which it is constant; by prime cubes one list serves as both.
const CODED: &[Coded] = &[
    Coded(
        Coding::Rows,
        "00:0 10:0 01:0 11:1",
        "00:0 10:0 X0:0 01:0 11:1 0X:0",
    ),
    Coded(Coding::Primes, "X0:0 11:1 0X:0", "X0:0 11:1 0X:0"),
];

// The cell of a conjunction.
fn conjunction_in(alloc: Global, coding: Coding) -> Result<Cell, AllocError> {
    let func = sum(alloc, &["11"], 2)?;
    cell_of(alloc, &func, 2, coding)
}

fn check_cubes(
    rt: &impl Abort,
    alloc: Global,
    cubes: &[Cube],
    want: &str,
) -> Result<(), AllocError> {
    let found = shown(alloc, cubes)?;
    assert_eq!(rt; found.as_str(), want);
    Ok(())
}

#[test]
fn a_cell_has_the_cubes_of_its_coding(rt: HostRuntime) -> Result<(), AllocError> {
    for row in CODED {
        let cell = conjunction_in(rt.alloc(), row.0)?;
        check_cubes(&rt, rt.alloc(), cell.covering(), row.1)?;
        check_cubes(&rt, rt.alloc(), cell.settling(), row.2)?;
    }
    Ok(())
}
