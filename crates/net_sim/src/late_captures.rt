//! What an end captures where a start comes late.
ghost use Rattle.std.specs.Prelude.{◌≡◌, ◌<◌, ◌≤◌, ℕ, Bool, IfOk, length};
ghost use Rattle.net_model.specs.Fits.{Fits, IsEndIn};
ghost use Rattle.net_model.specs.Netlist.{IsSound};
ghost use Rattle.net_model.specs.Cycles.{IsSettled};
ghost use Rattle.net_model.specs.Layers.{row_at, IsLateCapture, capture_over};
ghost use Rattle.net_sim.specs.Layers.{AreLayersFor};

use net_model::{
    Claim, Cycle, Design, End, LAYERS, PinRef, capture_of, late_reg_args, layer_pin, make_layers,
};
use sdcv_base::Seq;
use std::alloc::{AllocError, Global};
use std::marker::Model;

/// Room for the net values of five layers of a design: the first, and one for each of at most four through sets.
///
/// All are kept, since a pin that is in several sets may read an older layer than the one before. What a call leaves
/// in it means nothing to the next.
#[derive(Drop)]
pub struct Layers {
    rows: Seq<Seq<bool>>,
}

impl Model for Layers {
    ghost use Rattle.std.specs.Prelude.{List, Bool};

    ghost Value = { List (List Bool) };

    ghost view = { λ l. l.rows };
}

impl Layers {
    /// Room for the layers of this design.
    pub fn new(alloc: Global, design: &Design) -> Result<Layers, AllocError>
        ensures { IfOk result (AreLayersFor design.now) }
    {
        let mut rows = Seq::new(alloc);
        for _ in 0..LAYERS {
            rows.push(Seq::filled(alloc, false, design.nets)?)?;
        }
        Ok(Layers { rows })
    }
}

/// The capture of an end over the last of the layers.
fn capture_last(design: &Design, claim: &Claim, cycle: &Cycle, rows: &Seq<Seq<bool>>) -> bool
    requires sound { IsSound design.now }
    requires end { IsEndIn design.now claim.now.end }
    requires bits { length cycle.now.bits ≡ length design.now.regs }
    requires rows { length claim.now.through < length rows.now }
    requires lens { (m : ℕ) → m ≤ length claim.now.through → length (row_at rows.now m) ≡ design.now.nets }
    ensures { result ≡ capture_over design.now claim.now.through rows.now claim.now.end cycle.now }
{
    let sets = &claim.through;
    match &claim.end {
        End::Reg(r) => {
            let reg = design.regs.item(*r);
            let own = cycle.bits.at(*r);
            let args = late_reg_args(sets, rows, *r, reg, own);
            capture_of(reg, &args)
        }
        End::Output(o) => {
            let net = design.outputs.at(*o);
            layer_pin(sets, rows, sets.len(), PinRef::OutPort(*o), net)
        }
    }
}

/// The late capture: what the claim's end captures in a settled cycle where its start, in the first layer, shows this
/// stale bit.
pub fn layer_capture(
    design: &Design,
    claim: &Claim,
    cycle: &Cycle,
    stale: bool,
    layers: &mut Layers,
) -> bool
    requires sound { IsSound design.now }
    requires fits { Fits design.now claim.now }
    requires settled { IsSettled design.now cycle.now }
    requires room { AreLayersFor design.now layers.old }
    ensures late { IsLateCapture design.now claim.now cycle.now stale result }
    ensures only { (late : Bool) → IsLateCapture design.now claim.now cycle.now stale late → late ≡ result }
    ensures room { AreLayersFor design.now layers.new }
{
    make_layers(design, claim, stale, !stale, &cycle.nets, &mut layers.rows);
    capture_last(design, claim, cycle, &layers.rows)
}
