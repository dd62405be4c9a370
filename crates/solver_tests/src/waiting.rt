//! Watches and variables that wait.
ghost use Rattle.std.specs.Prelude.{◌≡◌};

use decision_heap::Heap;
use std::alloc::AllocError;
use watch_lists::Watches;

// Of three watches, two are on literal 4 and one on 5. Those on 4 wait, in any order, and leave it;
// then one of them is on 6.
#[test]
fn a_watch_moves_from_literal_to_literal(rt: HostRuntime) -> Result<(), AllocError> {
    let mut watches = Watches::new(rt.alloc(), 8)?;
    watches.add()?;
    watches.add()?;
    watches.add()?;
    watches.attach(0, 4);
    watches.attach(1, 5);
    watches.attach(2, 4);
    watches.gather(4);
    let both = [watches.take(), watches.take()];
    assert!(rt; both == [Some(0), Some(2)] || both == [Some(2), Some(0)]);
    assert_eq!(rt; watches.take(), None);
    if watches.literal(0) == 0 {
        watches.attach(0, 6);
    }
    let literals = [watches.literal(0), watches.literal(1), watches.literal(2)];
    watches.gather(6);
    assert!(rt; literals == [6, 5, 0] && watches.take() == Some(0));
    Ok(())
}

// Raises 3, 4 and 2, each by one more than the one before.
fn raise_three(heap: &mut Heap)
    requires { heap.old.vars ≡ 4 }
    ensures { heap.new.vars ≡ 4 }
{
    heap.raise(3);
    heap.age();
    heap.raise(4);
    heap.age();
    heap.raise(2);
}

// Raises 2 and 3, and lets 2 and 4 wait; the answer is whether 2 waited before.
fn let_wait(heap: &mut Heap) -> bool
    requires { heap.old.vars ≡ 4 }
{
    heap.raise(2);
    heap.raise(3);
    let waited = heap.contains(2);
    heap.insert(2);
    heap.insert(4);
    waited
}

// Whether they come first, one after the other, and no other waits.
fn come(heap: &mut Heap, vars: &[u32]) -> bool {
    for var in vars {
        if heap.pop() != Some(*var) {
            return false;
        }
    }
    heap.pop().is_none()
}

// Counted by hand: the scores are 3, 2 and 1 for the variables 2, 4 and 3, since each rise counts
// one more than that before; then 6 for 2, which is raised while it does not wait, and 4 for 3.
#[test]
fn the_most_raised_comes_first(rt: HostRuntime) -> Result<(), AllocError> {
    let mut heap = Heap::new(rt.alloc(), 4)?;
    raise_three(&mut heap);
    let first = heap.pop();
    let waited = let_wait(&mut heap);
    assert!(rt; first == Some(2) && !waited && come(&mut heap, &[2, 3, 4, 1]));
    Ok(())
}

#[test]
fn of_equal_scores_the_lower_comes_first(rt: HostRuntime) -> Result<(), AllocError> {
    let mut heap = Heap::new(rt.alloc(), 4)?;
    assert!(rt; come(&mut heap, &[1, 2, 3, 4]));
    Ok(())
}
