//! Orders worked out by hand.
use graph_order::{OrderFault, order_of};
use sdcv_base::Seq;
use std::alloc::{AllocError, Global};

fn rows(alloc: Global, needs: &[&[usize]]) -> Result<Vec<Seq<usize>>, AllocError> {
    let mut rows = Vec::new(alloc);
    for places in needs {
        rows.push(Seq::from_vec(Vec::from_slice(alloc, places)?))?;
    }
    Ok(rows)
}

// What each place needs, and the order. The second stands in a right order already; 9 is no place.
const ORDERS: &[(&[&[usize]], &[usize])] = &[
    (&[], &[]),
    (&[&[], &[0], &[0, 1]], &[0, 1, 2]),
    (&[&[2, 9], &[], &[1]], &[1, 2, 0]),
    (&[&[1, 2], &[3], &[3], &[]], &[3, 1, 2, 0]),
];

#[test]
fn each_place_comes_after_those_that_it_needs(rt: HostRuntime) -> Result<(), OrderFault> {
    for (needs, want) in ORDERS {
        let order = order_of(rt.alloc(), &rows(rt.alloc(), needs)?)?;
        assert!(rt; order.as_slice() == *want);
    }
    Ok(())
}

// Places 1 and 2 need each other; place 0 needs itself.
const LOOPS: &[(&[&[usize]], usize)] = &[(&[&[], &[2], &[0, 1]], 1), (&[&[0]], 0)];

#[test]
fn a_place_that_needs_itself_is_a_loop(rt: HostRuntime) -> Result<(), OrderFault> {
    for (needs, want) in LOOPS {
        let answer = order_of(rt.alloc(), &rows(rt.alloc(), needs)?);
        assert!(rt; answer.err() == Some(OrderFault::Loop(*want)));
    }
    Ok(())
}
