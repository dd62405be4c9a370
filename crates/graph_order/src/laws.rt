//! What always holds of the order of places. It is the contract of a call that does nothing, for callers that cite it.
ghost use Rattle.std.specs.Prelude.{◌≡◌, ℕ, List, length, Ok, Err};
ghost use Rattle.std.specs.List.{range_with_len};
ghost use Rattle.graph_order.specs.Needs.{IsOnCycle};
ghost use Rattle.graph_order.specs.Orders.{IsRightOrder, order_of, NeedsBelow};

use sdcv_base::Seq;

/// The order is right, the loop is one, and places that need only places below them stay as they stand.
pub fn orders_are(needs: &[Seq<usize>])
    ensures right { (order : List ℕ) → order_of needs.now ≡ Ok order → IsRightOrder needs.now order }
    ensures cycle { (place : ℕ) → order_of needs.now ≡ Err place → IsOnCycle needs.now place }
    ensures ascending { NeedsBelow needs.now → order_of needs.now ≡ Ok (range_with_len 0 (length needs.now)) }
{}
