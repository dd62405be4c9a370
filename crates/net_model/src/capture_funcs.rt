//! The capture of a register as one function.
ghost use Rattle.std.specs.Prelude.{◌≡◌, ◌&&◌, ◌||◌, not, ℕ, Bool, IfOk};
ghost use Rattle.net_model.specs.Form.{value, IsOver};
ghost use Rattle.net_model.specs.Netlist.{IsOptionOver};
ghost use Rattle.net_model.specs.Cycles.{reg_capture, value_if_any};
ghost use Rattle.net_model.specs.Mentions.{mentions, mentions_if_any, reg_mentions};

use crate::functions::Func;
use crate::netlist::Reg;
use std::alloc::{AllocError, Global};

/// The function where the control is 0, and else 0. A control that isn't there is 0.
fn zero_where(alloc: Global, func: Func, control: &Option<Func>) -> Result<Func, AllocError>
    ensures value { IfOk result (λ f. (bits : ℕ → Bool) → value f bits ≡ (value func bits && not (value_if_any control.now bits))) }
    ensures places { IfOk result (λ f. (place : ℕ) → mentions place f ≡ (mentions place func || mentions_if_any place control.now)) }
    ensures over { IfOk result (λ f. (n : ℕ) → IsOver n func → IsOptionOver n control.now → IsOver n f) }
{
    let Some(control) = control else {
        return Ok(func);
    };
    let off = Func::not(alloc, control.copy(alloc)?)?;
    Func::and(alloc, func, off)
}

/// The function where the control is 0, and else 1. A control that isn't there is 0.
fn one_where(alloc: Global, func: Func, control: &Option<Func>) -> Result<Func, AllocError>
    ensures value { IfOk result (λ f. (bits : ℕ → Bool) → value f bits ≡ (value func bits || value_if_any control.now bits)) }
    ensures places { IfOk result (λ f. (place : ℕ) → mentions place f ≡ (mentions place func || mentions_if_any place control.now)) }
    ensures over { IfOk result (λ f. (n : ℕ) → IsOver n func → IsOptionOver n control.now → IsOver n f) }
{
    let Some(control) = control else {
        return Ok(func);
    };
    Func::or(alloc, func, control.copy(alloc)?)
}

/// One function of the places of `ins` and of the own bit, whose value is what the register captures.
///
/// It mentions the places that the register's functions mention, the own bit too, and no others: none is lost where the
/// capture does not depend on it.
pub fn capture_func(alloc: Global, reg: &Reg) -> Result<Func, AllocError>
    ensures value { IfOk result (λ f. (pins : ℕ → Bool) → value f pins ≡ reg_capture reg.now pins) }
    ensures places { IfOk result (λ f. (place : ℕ) → mentions place f ≡ reg_mentions place reg.now) }
    ensures over { IfOk result (λ f. (n : ℕ) → IsOver n reg.now.next → IsOptionOver n reg.now.clear → IsOptionOver n reg.now.preset → IsOver n f) }
{
    let next = reg.next.copy(alloc)?;
    if reg.both {
        // The preset wins.
        let cleared = zero_where(alloc, next, &reg.clear)?;
        one_where(alloc, cleared, &reg.preset)
    } else {
        let preset = one_where(alloc, next, &reg.preset)?;
        zero_where(alloc, preset, &reg.clear)
    }
}
