//! The cubes that lie in no larger one.
ghost use Rattle.std.specs.Prelude.{◌≡◌, ◌<◌, ◌≤◌, ℕ, length, slice_index_or, Contains, IfOk};
ghost use Rattle.net_model.specs.Form.{value, IsOver};
ghost use Rattle.net_model.specs.Args.{arg_at};
ghost use Rattle.net_model.specs.declared.terns.Tern.TheVariants.{Zero as ZeroTern};
ghost use Rattle.query_model.specs.Tables.{constant_cubes};
ghost use Rattle.query_model.specs.Defined.{prime_cubes, is_prime};
ghost use Rattle.prime_cubes.specs.Freeing.{is_known, can_free};

use cell_cubes::cubes;
use net_model::{Args, Func, Tern, Value};
use query_model::Cube;
use std::alloc::{AllocError, Global};

/// The prime cubes of a function: the cubes on which it is constant and that lie in no larger such cube. They ascend as numbers of
/// base 3, as `cubes` of cell_cubes does: digit i is what is known of place i, with 0, 1 and 2 for zero, one and unknown.
///
/// A function that depends on no place has one prime cube, which fixes nothing.
pub fn primes(alloc: Global, func: &Func, places: usize) -> Result<Vec<Cube>, AllocError>
    requires few { places ≤ 7 }
    requires over { IsOver places func.now }
    ensures { IfOk result (λ v. v.items ≡ prime_cubes (value func.now) places) }
{
    let mut found = Vec::new(alloc);
    for cube in cubes(alloc, func, places)? {
        if is_prime(func, places, &cube) {
            found.push(cube)?;
        }
    }
    Ok(found)
}

/// A cube on which the function is constant is prime where no place can be freed.
fn is_prime(func: &Func, places: usize, cube: &Cube) -> bool
    requires few { places ≤ 7 }
    requires over { IsOver places func.now }
    requires constant { Contains (constant_cubes (value func.now) places) cube.now }
    ensures { result ≡ is_prime (constant_cubes (value func.now) places) cube.now }
{
    let fixed = cube.fixed.as_slice();
    for place in 0..fixed.len() {
        if can_free(func, fixed, place) {
            return false;
        }
    }
    true
}

/// The cube fixes the place, and the function is constant without that too.
fn can_free(func: &Func, fixed: &[Tern], place: usize) -> bool
    requires over { IsOver 7 func.now }
    requires few { length fixed.now ≤ 7 }
    requires place { place < length fixed.now }
    ensures { result ≡ can_free (value func.now) fixed.now place }
{
    let mut args = args_of(fixed);
    args.set(place, Tern::Unknown);
    is_known(fixed[place]) && is_known(Tern::apply(func, &args))
}

fn is_known(value: Tern) -> bool
    ensures { result ≡ is_known value }
{
    !matches!(value, Tern::Unknown)
}

/// The first places have these values, and the others zero.
fn args_of(fixed: &[Tern]) -> Args<Tern>
    requires { length fixed.now ≤ 7 }
    ensures { (i : ℕ) → i < 7 → arg_at result i ≡ slice_index_or fixed.now i ZeroTern }
{
    let mut args = Args::of(Tern::Zero);
    for i in 0..fixed.len() {
        args.set(i, fixed[i]);
    }
    args
}
