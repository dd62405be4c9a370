//! That a claim is violated at a toggle, or isn't, as clauses over keys.
ghost use Rattle.std.specs.Prelude.{◌≡◌, ◌≤◌, ◌+◌, ◌++◌, ◌∷◌, ◌^◌, length, map, flat_map, IfOk, OnOk};
ghost use Rattle.net_model.specs.Netlist.{IsSound};
ghost use Rattle.net_model.specs.Fits.{Fits};
ghost use Rattle.query_model.specs.Keys.{opposite, below};
ghost use Rattle.query_model.specs.Formula.{clean_clauses, bad_clauses};
ghost use Rattle.query_model.specs.Formula.{some_chosen, chosen_clauses, all_chosen};

use crate::conditions::{TOGGLE, alternatives, extra_lit};
use net_model::{Claim, Design};
use query_model::KeyLit;
use sdcv_base::Seq;
use std::alloc::{AllocError, Global};

/// The further point of a cycle that says that the first alternative is chosen. Those of the others come after.
const FIRST_CHOICE: usize = 20;

/// The complement of a literal.
pub fn opposite_of(lit: KeyLit) -> KeyLit
    ensures { result ≡ opposite lit }
{
    KeyLit {
        key: lit.key,
        positive: !lit.positive,
    }
}

/// The literal, and the complements of conditions.
fn unless(alloc: Global, lit: KeyLit, conditions: &Seq<KeyLit>) -> Result<Seq<KeyLit>, AllocError>
    ensures { IfOk result (λ clause. clause ≡ lit ∷ map opposite conditions.now) }
{
    let mut clause = Seq::one(alloc, lit)?;
    for condition in conditions.as_slice() {
        clause.push(opposite_of(*condition))?;
    }
    Ok(clause)
}

/// That a claim is not violated at a toggle in this cycle.
fn push_clean(
    alloc: Global,
    asked: &mut Seq<Seq<KeyLit>>,
    design: &Design,
    claim: &Claim,
    cycle: usize,
) -> Result<(), AllocError>
    requires sound { IsSound design.now }
    requires fits { Fits design.now claim.now }
    requires cycle { cycle ≤ 2 ^ 32 }
    ensures { OnOk result (asked.new ≡ asked.old ++ clean_clauses design.now claim.now cycle) }
{
    let found = alternatives(alloc, design, claim, cycle)?;
    let still = extra_lit(design, cycle, TOGGLE, false);
    for conditions in found.as_slice() {
        asked.push(unless(alloc, still, conditions)?)?;
    }
    Ok(())
}

/// That a claim is violated at no toggle of the first cycles after the resets.
pub fn push_clean_below(
    alloc: Global,
    asked: &mut Seq<Seq<KeyLit>>,
    design: &Design,
    claim: &Claim,
    live: usize,
    clean: usize,
) -> Result<(), AllocError>
    requires sound { IsSound design.now }
    requires fits { Fits design.now claim.now }
    requires live { live ≤ 64 }
    requires clean { clean ≤ 64 }
    ensures { OnOk result (asked.new ≡ asked.old ++ flat_map (λ o. clean_clauses design.now claim.now (live + 1 + o)) (below clean)) }
{
    for offset in 0..clean {
        push_clean(alloc, asked, design, claim, live + 1 + offset)?;
    }
    Ok(())
}

/// That one of the alternatives is chosen.
fn some_choice(
    alloc: Global,
    design: &Design,
    cycle: usize,
    found: &Seq<Seq<KeyLit>>,
) -> Result<Seq<KeyLit>, AllocError>
    requires sound { IsSound design.now }
    requires few { length found.now ≤ 30 }
    ensures { IfOk result (λ clause. clause ≡ some_chosen design.now cycle found.now) }
{
    let mut clause = Seq::new(alloc);
    for place in 0..found.len() {
        clause.push(extra_lit(design, cycle, FIRST_CHOICE + place, true))?;
    }
    Ok(clause)
}

/// That the conditions of an alternative hold where it is chosen.
fn push_chosen(
    alloc: Global,
    asked: &mut Seq<Seq<KeyLit>>,
    design: &Design,
    cycle: usize,
    place: usize,
    conditions: &Seq<KeyLit>,
) -> Result<(), AllocError>
    requires sound { IsSound design.now }
    requires place { place ≤ 30 }
    ensures { OnOk result (asked.new ≡ asked.old ++ chosen_clauses design.now cycle place conditions.now) }
{
    let other = extra_lit(design, cycle, FIRST_CHOICE + place, false);
    for condition in conditions.as_slice() {
        asked.push(Seq::of(alloc, &[other, *condition])?)?;
    }
    Ok(())
}

/// That the conditions of each alternative hold where it is chosen.
fn push_choices(
    alloc: Global,
    asked: &mut Seq<Seq<KeyLit>>,
    design: &Design,
    cycle: usize,
    found: &Seq<Seq<KeyLit>>,
) -> Result<(), AllocError>
    requires sound { IsSound design.now }
    requires few { length found.now ≤ 30 }
    ensures { OnOk result (asked.new ≡ asked.old ++ all_chosen design.now cycle found.now) }
{
    for place in 0..found.len() {
        push_chosen(alloc, asked, design, cycle, place, found.item(place))?;
    }
    Ok(())
}

/// That a claim is violated at a toggle in this cycle.
pub fn push_bad(
    alloc: Global,
    asked: &mut Seq<Seq<KeyLit>>,
    design: &Design,
    claim: &Claim,
    cycle: usize,
) -> Result<(), AllocError>
    requires sound { IsSound design.now }
    requires fits { Fits design.now claim.now }
    requires cycle { cycle ≤ 2 ^ 32 }
    ensures { OnOk result (asked.new ≡ asked.old ++ bad_clauses design.now claim.now cycle) }
{
    let found = alternatives(alloc, design, claim, cycle)?;
    let toggles = extra_lit(design, cycle, TOGGLE, true);
    asked.push(Seq::one(alloc, toggles)?)?;
    asked.push(some_choice(alloc, design, cycle, &found)?)?;
    push_choices(alloc, asked, design, cycle, &found)?;
    Ok(())
}
