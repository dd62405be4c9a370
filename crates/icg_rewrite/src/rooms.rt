//! Whether there is room for the enables.
ghost use Rattle.std.specs.Prelude.{◌≡◌, ◌<◌, ◌↔◌, ℕ, length, IsTrue, MatchOption, IfErr, OnOk};
ghost use Rattle.icg_rewrite.specs.Faults.{IsFull, HasRoom, IsRewriteCause};
ghost use Rattle.icg_rewrite.specs.Gated.{AreGated};

use crate::clock_gates::Gated;
use crate::faults::RewriteFault;
use net_model::{MOST_NETS, MOST_PINS};

/// Whether the register stands behind a clock gate and has no room for an enable.
fn is_full(gated: &Gated, r: usize) -> bool
    requires are { AreGated gated.now }
    requires reg { r < length gated.now.of }
    ensures { IsTrue result ↔ IsFull gated.now r }
{
    gated.of.at(r).is_some() && gated.design.regs.item(r).ins.len() == MOST_PINS
}

/// The first register without room for its enable.
fn first_full(gated: &Gated) -> Option<usize>
    requires { AreGated gated.now }
    ensures first { MatchOption result ((r : ℕ) → ¬ IsFull gated.now r) (λ r. (q : ℕ) → q < r → ¬ IsFull gated.now q) }
    ensures full { MatchOption result ((r : ℕ) → ¬ IsFull gated.now r) (λ r. IsFull gated.now r) }
{
    for r in 0..gated.of.len() {
        if is_full(gated, r) {
            return Some(r);
        }
    }
    None
}

/// Checks that there is room for each enable.
pub(crate) fn check_room(gated: &Gated) -> Result<(), RewriteFault>
    requires { AreGated gated.now }
    ensures ok { OnOk result (HasRoom gated.now) }
    ensures err { IfErr result (IsRewriteCause gated.now) }
{
    if let Some(r) = first_full(gated) {
        return Err(RewriteFault::Pins(r));
    }
    match gated.design.nets.checked_add(gated.gates.len()) {
        Some(nets) if nets <= MOST_NETS => Ok(()),
        Some(nets) => Err(RewriteFault::Nets(nets)),
        // A number does not count so many, and no memory holds them.
        None => Err(RewriteFault::Memory),
    }
}
