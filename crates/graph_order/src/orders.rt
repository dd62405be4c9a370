//! The search, depth first, with a stack of its own.
ghost use Rattle.std.specs.Prelude.{◌≡◌, ◌<◌, ℕ, suc, [], true, false, length, slice_index_or, Ok, OnOk, IfOk, IfErr, IfSome, IfNone, All, Contains, find};
ghost use Rattle.graph_order.specs.Needs.{IsCause, IsOnCycle, needs_of};
ghost use Rattle.graph_order.specs.Orders.{IsRightOrder, order_of, visited, Tells};
ghost use Rattle.graph_order.specs.Visits.{IsVisiting, Waits, IsFree, is_waiting};

use crate::faults::OrderFault;
use crate::stacks::Stack;
use sdcv_base::Seq;
use std::alloc::Global;

/// The places in an order in which each comes after those that it needs: depth first, roots and needs in their order.
/// A need that is no place counts for nothing.
pub fn order_of(alloc: Global, needs: &[Seq<usize>]) -> Result<Seq<usize>, OrderFault>
    ensures is { IfOk result (λ order. order_of needs.now ≡ Ok order) }
    ensures told { IfErr result (Tells (order_of needs.now)) }
    ensures ok { IfOk result (IsRightOrder needs.now) }
    ensures err { IfErr result (IsCause needs.now) }
    ensures none { OnOk result ((place : ℕ) → IsOnCycle needs.now place → ⊥) }
{
    let mut seen = Seq::filled(alloc, false, needs.len())?;
    let mut done = Seq::filled(alloc, false, needs.len())?;
    let mut order = Seq::new(alloc);
    for root in 0..needs.len() {
        if !seen.at(root) {
            visit(alloc, needs, &mut seen, &mut done, &mut order, root)?;
        }
    }
    Ok(order)
}

/// Puts a place, and before it all that it waits for, into the order.
fn visit(
    alloc: Global,
    needs: &[Seq<usize>],
    seen: &mut Seq<bool>,
    done: &mut Seq<bool>,
    order: &mut Seq<usize>,
    root: usize,
) -> Result<(), OrderFault>
    requires within { root < length needs.now }
    requires fresh { slice_index_or seen.old root false ≡ false }
    requires visiting { IsVisiting needs.now [] seen.old done.old order.old }
    ensures visiting { OnOk result (IsVisiting needs.now [] seen.new done.new order.new) }
    ensures root { OnOk result (slice_index_or seen.new root false ≡ true) }
    ensures grows { OnOk result ((k : ℕ) → slice_index_or seen.old k false ≡ true → slice_index_or seen.new k false ≡ true) }
    ensures is { OnOk result (visited (suc (length needs.now)) needs.now [] order.old root ≡ Ok order.new) }
    ensures told { IfErr result (Tells (visited (suc (length needs.now)) needs.now [] order.old root)) }
    ensures err { IfErr result (IsCause needs.now) }
{
    let mut stack = Stack::new(alloc);
    stack.push(root)?;
    seen.put(root, true);
    while let Some(place) = stack.top() {
        match first_waiting(needs, done, place) {
            Some(need) => {
                if seen.at(need) {
                    return Err(OrderFault::Loop(need));
                }
                stack.push(need)?;
                seen.put(need, true);
            }
            None => {
                let _top = stack.pop();
                done.put(place, true);
                order.push(place)?;
            }
        }
    }
    Ok(())
}

/// A place that is needed and not in the order yet, if any.
fn first_waiting(needs: &[Seq<usize>], done: &Seq<bool>, place: usize) -> Option<usize>
    requires within { place < length needs.now }
    requires len { length done.now ≡ length needs.now }
    ensures first { result ≡ find (is_waiting done.now) (needs_of needs.now place) }
    ensures some { IfSome result (λ need. Waits needs.now done.now place need) }
    ensures none { IfNone result (IsFree needs.now done.now place) }
{
    waiting_of(done, needs[place].as_slice())
}

/// The first of these that waits.
fn waiting_of(done: &Seq<bool>, needs: &[usize]) -> Option<usize>
    ensures first { result ≡ find (is_waiting done.now) needs.now }
    ensures some { IfSome result (λ need. Contains needs.now need × (is_waiting done.now need ≡ true)) }
    ensures none { IfNone result (All (λ need. is_waiting done.now need ≡ false) needs.now) }
{
    needs.iter().copied().find(|need| is_waiting(done, *need))
}

/// The need is a place that is not in the order yet.
fn is_waiting(done: &Seq<bool>, need: usize) -> bool
    ensures { result ≡ is_waiting done.now need }
{
    need < done.len() && !done.at(need)
}
