//! What a register captures of what its pins read.
ghost use Rattle.std.specs.Prelude.{◌≡◌};
ghost use Rattle.net_model.specs.Args.{arg_at};
ghost use Rattle.net_model.specs.Form.{IsOver};
ghost use Rattle.net_model.specs.Netlist.{IsOptionOver};
ghost use Rattle.net_model.specs.Cycles.{reg_capture, value_if_any};

use crate::arguments::Args;
use crate::functions::Func;
use crate::netlist::Reg;
use crate::values::Value;

/// The value of a clear or preset function; one that isn't there is 0.
fn apply_if_any(func: &Option<Func>, args: &Args<bool>) -> bool
    requires { IsOptionOver 7 func.now }
    ensures { result ≡ value_if_any func.now (arg_at args.now) }
{
    match func {
        None => false,
        Some(func) => bool::apply(func, args),
    }
}

/// The capture of a register whose places have these bits.
pub fn capture_of(reg: &Reg, args: &Args<bool>) -> bool
    requires next { IsOver 7 reg.now.next }
    requires clear { IsOptionOver 7 reg.now.clear }
    requires preset { IsOptionOver 7 reg.now.preset }
    ensures { result ≡ reg_capture reg.now (arg_at args.now) }
{
    let clear = apply_if_any(&reg.clear, args);
    let preset = apply_if_any(&reg.preset, args);
    if clear && preset {
        reg.both
    } else if clear {
        false
    } else if preset {
        true
    } else {
        bool::apply(&reg.next, args)
    }
}
