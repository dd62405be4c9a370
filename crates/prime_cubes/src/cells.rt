//! The cubes that a coding takes of a function.
ghost use Rattle.std.specs.Prelude.{◌≡◌, ◌≤◌, map, IfOk};
ghost use Rattle.net_model.specs.Form.{value, IsOver};
ghost use Rattle.net_model.specs.Ternary.{tern_of};
ghost use Rattle.query_model.specs.Tables.{row_bits, row_cubes};
ghost use Rattle.query_model.specs.Defined.{covering, settling};

use crate::implicants::primes;
use cell_cubes::{cubes, rows};
use net_model::{Func, Tern, Value};
use query_model::{Coding, Cube};
use sdcv_base::Seq;
use std::alloc::{AllocError, Global};
use std::marker::Model;

/// The cubes by which an output is what a function gives, and those by which it is nothing else where hazards count.
///
/// Where both are the same list it is kept once.
#[derive(Drop)]
pub struct Cell {
    covering: Seq<Cube>,
    settling: Option<Seq<Cube>>,
}

impl Model for Cell {
    ghost use Rattle.prime_cubes.specs.Cells.{CellCubes, cell_cubes};

    ghost Value = { CellCubes };

    ghost view = { λ c. cell_cubes c.covering c.settling };
}

impl Cell {
    /// The cubes of which each row of the function lies in one.
    pub fn covering(&self) -> &[Cube]
        ensures { result.now ≡ self.now.covering }
    {
        self.covering.as_slice()
    }

    /// The cubes of which each cube on which the function is constant lies in one.
    pub fn settling(&self) -> &[Cube]
        ensures { result.now ≡ self.now.settling }
    {
        match &self.settling {
            Some(cubes) => cubes.as_slice(),
            None => self.covering.as_slice(),
        }
    }
}

/// The cubes of a function in a coding: its rows and all cubes on which it is constant, or twice its prime cubes.
pub fn cell_of(
    alloc: Global,
    func: &Func,
    places: usize,
    coding: Coding,
) -> Result<Cell, AllocError>
    requires few { places ≤ 7 }
    requires over { IsOver places func.now }
    ensures covering { IfOk result (λ c. c.covering ≡ covering coding (value func.now) places) }
    ensures settling { IfOk result (λ c. c.settling ≡ settling coding (value func.now) places) }
{
    match coding {
        Coding::Rows => {
            let settling = Seq::from_vec(cubes(alloc, func, places)?);
            Ok(Cell {
                covering: row_cubes(alloc, func, places)?,
                settling: Some(settling),
            })
        }
        Coding::Primes => Ok(Cell {
            covering: Seq::from_vec(primes(alloc, func, places)?),
            settling: None,
        }),
    }
}

/// The rows of a function, row 0 first, as cubes that fix each place.
fn row_cubes(alloc: Global, func: &Func, places: usize) -> Result<Seq<Cube>, AllocError>
    requires few { places ≤ 7 }
    requires over { IsOver places func.now }
    ensures { IfOk result (λ s. s ≡ row_cubes (value func.now) places) }
{
    let values = rows(alloc, func, places)?;
    let mut found = Seq::new(alloc);
    for row in 0..values.len() {
        let fixed = row_terns(alloc, places, row)?;
        found.push(Cube {
            fixed,
            value: values[row],
        })?;
    }
    Ok(found)
}

/// The bits of a number at the first places, the lowest first.
fn row_terns(alloc: Global, places: usize, number: usize) -> Result<Seq<Tern>, AllocError>
    ensures { IfOk result (λ s. s ≡ map tern_of (row_bits places number)) }
{
    let mut fixed = Seq::new(alloc);
    let mut rest = number;
    for _ in 0..places {
        fixed.push(Tern::of_bit(rest % 2 == 1))?;
        rest /= 2;
    }
    Ok(fixed)
}
