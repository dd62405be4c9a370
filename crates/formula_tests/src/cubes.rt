//! Rows and cubes of a function, by hand.
ghost use Rattle.std.specs.Prelude.{IfOk};
ghost use Rattle.net_model.specs.Form.{IsOver};

use cell_cubes::{cubes, rows};
use net_model::{Func, Tern};
use std::alloc::{AllocError, Global};

// The conjunction of the places 0 and 1.
fn conjunction(alloc: Global) -> Result<Func, AllocError>
    ensures { IfOk result (λ f. IsOver 2 f) }
{
    Func::and(alloc, Func::pin(0), Func::pin(1))
}

// The first row is all zeros; the third has place 1 alone.
#[test]
fn rows_of_a_conjunction_ascend_by_bits(rt: HostRuntime) -> Result<(), AllocError> {
    let alloc = rt.alloc();
    let func = conjunction(alloc)?;
    let values = rows(alloc, &func, 2)?;
    assert!(rt; values.as_slice() == [false, false, false, true].as_slice());
    Ok(())
}

// Of the nine cubes of two places a conjunction is constant on six: 00, 10, 01, 11, X0 and 0X, place 0 first, which are
// the numbers 0, 1, 3, 4, 2 and 6.
#[test]
fn cubes_of_a_conjunction_ascend_by_number(rt: HostRuntime) -> Result<(), AllocError> {
    let alloc = rt.alloc();
    let func = conjunction(alloc)?;
    let want = [
        (Tern::Zero, Tern::Zero, false),
        (Tern::One, Tern::Zero, false),
        (Tern::Unknown, Tern::Zero, false),
        (Tern::Zero, Tern::One, false),
        (Tern::One, Tern::One, true),
        (Tern::Zero, Tern::Unknown, false),
    ];
    let found = cubes(alloc, &func, 2)?;
    assert_eq!(rt; found.len(), 6);
    for (cube, (first, second, value)) in found.iter().zip(want) {
        assert!(rt; cube.fixed.as_slice() == [first, second].as_slice());
        assert_eq!(rt; cube.value, value);
    }
    Ok(())
}
