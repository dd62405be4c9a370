//! Rows and cubes, in the order of their numbers.
ghost use Rattle.std.specs.Prelude.{◌≡◌, ◌<◌, ◌≤◌, ◌^◌, ◌++◌, ℕ, Bool, false, [], ◌∷◌, length, map, slice_index_or, IfOk, OnOk};
ghost use Rattle.net_model.specs.Form.{value, IsOver};
ghost use Rattle.net_model.specs.Args.{arg_at};
ghost use Rattle.net_model.specs.Ternary.{tern_of};
ghost use Rattle.net_model.specs.declared.terns.Tern.TheVariants.{Zero as ZeroTern, Unknown as UnknownTern};
ghost use Rattle.query_model.specs.Keys.{below};
ghost use Rattle.query_model.specs.Tables.{row_bits, cube_terns, digit_tern, on_list, constant_cubes};

use net_model::{Args, Func, Tern, Value};
use query_model::Cube;
use sdcv_base::Seq;
use std::alloc::{AllocError, Global};

/// The function's value in each row, row 0 first: in row w place i has bit i of w.
pub fn rows(alloc: Global, func: &Func, places: usize) -> Result<Vec<bool>, AllocError>
    requires few { places ≤ 7 }
    requires over { IsOver places func.now }
    ensures { IfOk result (λ v. v.items ≡ map (λ w. on_list (value func.now) (row_bits places w)) (below (2 ^ places))) }
{
    let mut values = Vec::new(alloc);
    for w in 0..1usize << places {
        values.push(bool::apply(func, &row(places, w)))?;
    }
    Ok(values)
}

/// The bits of a number at the first places, the lowest first.
fn row(places: usize, number: usize) -> Args<bool>
    requires few { places ≤ 7 }
    ensures { (i : ℕ) → i < 7 → arg_at result i ≡ slice_index_or (row_bits places number) i false }
{
    let mut bits = Args::of(false);
    let mut rest = number;
    for i in 0..places {
        bits.set(i, rest % 2 == 1);
        rest /= 2;
    }
    bits
}

/// All cubes on which the function is constant, ascending as numbers of base 3: digit i is what is known of place i, with
/// 0, 1 and 2 for zero, one and unknown.
pub fn cubes(alloc: Global, func: &Func, places: usize) -> Result<Vec<Cube>, AllocError>
    requires few { places ≤ 7 }
    requires over { IsOver places func.now }
    ensures { IfOk result (λ v. v.items ≡ constant_cubes (value func.now) places) }
{
    let mut found = Vec::new(alloc);
    let count = 3usize.pow(places as u32);
    for w in 0..count {
        let fixed = terns(alloc, places, w)?;
        let value = Tern::apply(func, &args_of(fixed.as_slice()));
        push_known(&mut found, fixed, value)?;
    }
    Ok(found)
}

/// The digits of a number in base 3, the lowest first.
fn terns(alloc: Global, places: usize, number: usize) -> Result<Seq<Tern>, AllocError>
    ensures { IfOk result (λ v. v ≡ cube_terns places number) }
{
    let mut fixed = Seq::new(alloc);
    let mut rest = number;
    for _ in 0..places {
        fixed.push(digit(rest % 3))?;
        rest /= 3;
    }
    Ok(fixed)
}

fn digit(number: usize) -> Tern
    ensures { result ≡ digit_tern number }
{
    match number {
        0 => Tern::Zero,
        1 => Tern::One,
        _ => Tern::Unknown,
    }
}

/// The first places have these values, and the others zero.
fn args_of(fixed: &[Tern]) -> Args<Tern>
    requires few { length fixed.now ≤ 7 }
    ensures { (i : ℕ) → i < 7 → arg_at result i ≡ slice_index_or fixed.now i ZeroTern }
{
    let mut args = Args::of(Tern::Zero);
    for i in 0..fixed.len() {
        args.set(i, fixed[i]);
    }
    args
}

/// Keeps a cube where its value is known.
fn push_known(cubes: &mut Vec<Cube>, fixed: Seq<Tern>, value: Tern) -> Result<(), AllocError>
    ensures known { OnOk result ((b : Bool) → value ≡ tern_of b → cubes.new.items ≡ cubes.old.items ++ record { fixed = fixed; value = b } ∷ []) }
    ensures unknown { OnOk result (value ≡ UnknownTern → cubes.new.items ≡ cubes.old.items) }
{
    let value = match value {
        Tern::Zero => false,
        Tern::One => true,
        Tern::Unknown => return Ok(()),
    };
    cubes.push(Cube { fixed, value })?;
    Ok(())
}
