//! A register's whole capture as one cell.
ghost use Rattle.std.specs.Prelude.{◌≡◌, ◌≤◌};
ghost use Rattle.net_model.specs.Args.{arg_at};
ghost use Rattle.net_model.specs.Form.{IsOver};
ghost use Rattle.net_model.specs.Netlist.{IsOptionOver};
ghost use Rattle.net_model.specs.Cycles.{reg_capture};
ghost use Rattle.net_model.specs.Ternary.{IsCommonValue};
ghost use Rattle.net_model.specs.Splitting.{common};

use net_model::{Args, Reg, Tern, Value, capture_of};

/// The common capture over all completions of the first places.
fn common_capture(reg: &Reg, args: &Args<Tern>, count: usize, bits: Args<bool>) -> Tern
    requires next { IsOver 7 reg.now.next }
    requires clear { IsOptionOver 7 reg.now.clear }
    requires preset { IsOptionOver 7 reg.now.preset }
    requires few { count ≤ 7 }
    ensures { result ≡ common count (reg_capture reg.now) (arg_at args.now) (arg_at bits) }
{
    if count == 0 {
        return Tern::of_bit(capture_of(reg, &bits));
    }
    let place = count - 1;
    let mut low = bits;
    low.set(place, false);
    let mut high = bits;
    high.set(place, true);
    match args.at(place) {
        Tern::Zero => common_capture(reg, args, place, low),
        Tern::One => common_capture(reg, args, place, high),
        Tern::Unknown => {
            let low = common_capture(reg, args, place, low);
            let high = common_capture(reg, args, place, high);
            low.join(high)
        }
    }
}

/// The capture of a register whose places have these values: the common capture of all completions of the unknown
/// places, else unknown.
pub fn cell_capture(reg: &Reg, args: &Args<Tern>) -> Tern
    requires next { IsOver 7 reg.now.next }
    requires clear { IsOptionOver 7 reg.now.clear }
    requires preset { IsOptionOver 7 reg.now.preset }
    ensures { IsCommonValue (reg_capture reg.now) (arg_at args.now) result }
{
    common_capture(reg, args, 7, Args::of(false))
}
