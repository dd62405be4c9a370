//! The conditions under which a toggle is a violation of a claim.
ghost use Rattle.std.specs.Prelude.{◌≡◌, ◌≤◌, ◌+◌, ◌++◌, ◌∷◌, ◌^◌, true, [], length, IfOk, OnOk};
ghost use Rattle.net_model.specs.Netlist.{IsSound};
ghost use Rattle.net_model.specs.Fits.{Fits};
ghost use Rattle.query_model.specs.Keys.{lit};
ghost use Rattle.query_model.specs.Defined.{extra, differ_key};
ghost use Rattle.query_model.specs.Formula.{stale_if_later, plain_alternatives, hazard_alternatives, late_alternatives, alternatives_at};
ghost use Rattle.query_model.specs.Formula.{lone_change, early_alternatives, alternatives};

use net_model::{Claim, Design, Kind};
use query_model::{Key, KeyLit};
use sdcv_base::Seq;
use std::alloc::{AllocError, Global};

/// The further point of a cycle that says whether the start toggles there.
pub const TOGGLE: usize = 0;
/// The one that says whether what the end captures changes.
pub const CHANGE: usize = 1;
/// The one that says whether the late capture differs.
pub const DIFFER: usize = 2;
/// So many places after this one: whether the start's bit differs from the one before a toggle so many cycles ago.
pub const STALE: usize = 2;

/// The literal of a further point of a cycle.
pub fn extra_lit(design: &Design, cycle: usize, place: usize, positive: bool) -> KeyLit
    requires sound { IsSound design.now }
    requires place { place ≤ 2 ^ 32 }
    ensures { result ≡ lit positive (extra design.now cycle place) }
{
    let key = Key {
        cycle,
        layer: 0,
        rail: 0,
        point: design.nets + design.regs.len() + place,
    };
    KeyLit { key, positive }
}

/// That the start's bit differs from the one before the toggle, in a cycle after it: only then does a late start show
/// the bit from before the toggle.
fn push_stale(
    conditions: &mut Seq<KeyLit>,
    design: &Design,
    cycle: usize,
    later: usize,
) -> Result<(), AllocError>
    requires sound { IsSound design.now }
    requires later { later ≤ 15 }
    ensures { OnOk result (conditions.new ≡ conditions.old ++ stale_if_later design.now cycle later) }
{
    if later > 0 {
        conditions.push(extra_lit(design, cycle, STALE + later, true))?;
    }
    Ok(())
}

/// The conditions under which a cycle is bad where hazards don't count, so many cycles after the toggle.
fn plain_conditions(
    alloc: Global,
    design: &Design,
    claim: &Claim,
    cycle: usize,
    later: usize,
) -> Result<Seq<KeyLit>, AllocError>
    requires sound { IsSound design.now }
    requires later { later ≤ 15 }
    ensures { IfOk result (λ conditions. conditions ∷ [] ≡ plain_alternatives claim.now.kind claim.now.through design.now cycle later) }
{
    let mut conditions = Seq::new(alloc);
    if let Kind::Multi(_) = claim.kind {
        conditions.push(extra_lit(design, cycle, CHANGE, true))?;
        if claim.through.is_empty() {
            return Ok(conditions);
        }
    }
    conditions.push(extra_lit(design, cycle, DIFFER, true))?;
    push_stale(&mut conditions, design, cycle, later)?;
    Ok(conditions)
}

/// That the capture changes, where this is enough for a cycle to be bad though hazards count.
fn push_change(
    alloc: Global,
    found: &mut Seq<Seq<KeyLit>>,
    design: &Design,
    claim: &Claim,
    cycle: usize,
) -> Result<(), AllocError>
    requires sound { IsSound design.now }
    ensures { OnOk result (found.new ≡ found.old ++ lone_change claim.now.kind claim.now.through design.now cycle) }
{
    if let Kind::Multi(_) = claim.kind {
        if claim.through.is_empty() {
            let change = extra_lit(design, cycle, CHANGE, true);
            found.push(Seq::one(alloc, change)?)?;
        }
    }
    Ok(())
}

/// That the late capture differs in a cycle, or may be both where hazards count.
fn push_differ(
    alloc: Global,
    found: &mut Seq<Seq<KeyLit>>,
    design: &Design,
    cycle: usize,
) -> Result<(), AllocError>
    requires sound { IsSound design.now }
    ensures { OnOk result (found.new ≡ found.old ++ (lit true (differ_key design.now cycle) ∷ []) ∷ []) }
{
    let differ = extra_lit(design, cycle, DIFFER, true);
    found.push(Seq::one(alloc, differ)?)?;
    Ok(())
}

/// The alternatives for a cycle to be bad where hazards count.
fn push_hazard(
    alloc: Global,
    found: &mut Seq<Seq<KeyLit>>,
    design: &Design,
    claim: &Claim,
    cycle: usize,
) -> Result<(), AllocError>
    requires sound { IsSound design.now }
    ensures { OnOk result (found.new ≡ found.old ++ hazard_alternatives claim.now.kind claim.now.through design.now cycle) }
{
    push_change(alloc, found, design, claim, cycle)?;
    push_differ(alloc, found, design, cycle)
}

/// The alternatives for a cycle to be bad on the late side, so many cycles after the toggle.
fn push_late(
    alloc: Global,
    found: &mut Seq<Seq<KeyLit>>,
    design: &Design,
    claim: &Claim,
    toggle: usize,
    later: usize,
) -> Result<(), AllocError>
    requires sound { IsSound design.now }
    requires toggle { toggle ≤ 2 ^ 32 }
    requires later { later ≤ 15 }
    ensures { OnOk result (found.new ≡ found.old ++ late_alternatives design.now claim.now toggle later) }
{
    let cycle = toggle + later;
    if claim.hazard {
        return push_hazard(alloc, found, design, claim, cycle);
    }
    found.push(plain_conditions(alloc, design, claim, cycle, later)?)?;
    Ok(())
}

/// The alternative of the early side: in the cycle before the toggle a start that shows its new bit is seen.
fn push_early(
    alloc: Global,
    found: &mut Seq<Seq<KeyLit>>,
    design: &Design,
    toggle: usize,
) -> Result<(), AllocError>
    requires sound { IsSound design.now }
    ensures { OnOk result (found.new ≡ found.old ++ early_alternatives design.now toggle) }
{
    push_differ(alloc, found, design, toggle.saturating_sub(1))
}

/// The alternatives of a claim's side, so many cycles after the toggle.
fn push_alternatives(
    alloc: Global,
    found: &mut Seq<Seq<KeyLit>>,
    design: &Design,
    claim: &Claim,
    toggle: usize,
    later: usize,
) -> Result<(), AllocError>
    requires sound { IsSound design.now }
    requires toggle { toggle ≤ 2 ^ 32 }
    requires later { later ≤ 15 }
    ensures { OnOk result (found.new ≡ found.old ++ alternatives_at design.now claim.now toggle later) }
{
    if claim.early {
        push_early(alloc, found, design, toggle)
    } else {
        push_late(alloc, found, design, claim, toggle, later)
    }
}

/// All alternatives for the captures that are judged of a toggle: each is a list of conditions under which one of them is bad.
pub fn alternatives(
    alloc: Global,
    design: &Design,
    claim: &Claim,
    toggle: usize,
) -> Result<Seq<Seq<KeyLit>>, AllocError>
    requires sound { IsSound design.now }
    requires fits { Fits design.now claim.now }
    requires toggle { toggle ≤ 2 ^ 32 }
    ensures found { IfOk result (λ found. found ≡ alternatives design.now claim.now toggle) }
    ensures few { IfOk result (λ found. length found ≤ 30) }
{
    let mut found = Seq::new(alloc);
    for later in 0..claim.judged_count() {
        push_alternatives(alloc, &mut found, design, claim, toggle, later)?;
    }
    Ok(found)
}
