//! What an end captures where a start is unknown.
ghost use Rattle.std.specs.Prelude.{◌≡◌, ◌<◌, ◌≤◌, ℕ, Bool, IfOk, length};
ghost use Rattle.net_model.specs.Fits.{Fits, IsEndIn};
ghost use Rattle.net_model.specs.Netlist.{IsSound};
ghost use Rattle.net_model.specs.Cycles.{IsSettled};
ghost use Rattle.net_model.specs.Layers.{row_at};
ghost use Rattle.net_model.specs.Ternary.{tern_of, IsTernaryCapture, IsTernaryCaptureOver};
ghost use Rattle.net_model.specs.declared.terns.Tern.{Tern as TernValue};
ghost use Rattle.ternary_sim.specs.TernaryLayers.{AreTernaryLayersFor};
ghost use Rattle.ternary_sim.specs.Hazards.{IsSteady};

use crate::cells::cell_capture;
use net_model::{
    Claim, Cycle, Design, End, LAYERS, PinRef, Tern, Value, late_reg_args, layer_pin, make_layers,
};
use sdcv_base::Seq;
use std::alloc::{AllocError, Global};
use std::marker::Model;

/// Room for the net values of five ternary layers of a design: the first, and one for each of at most four through
/// sets.
///
/// All are kept, since a pin that is in several sets may read an older layer than the one before. What a call leaves
/// in it means nothing to the next.
#[derive(Drop)]
pub struct Layers3 {
    rows: Seq<Seq<Tern>>,
}

impl Model for Layers3 {
    ghost use Rattle.std.specs.Prelude.{List};
    ghost use Rattle.net_model.specs.declared.terns.Tern.{Tern as TernValue};

    ghost Value = { List (List TernValue) };

    ghost view = { λ l. l.rows };
}

impl Layers3 {
    /// Room for the ternary layers of this design.
    pub fn new(alloc: Global, design: &Design) -> Result<Layers3, AllocError>
        ensures { IfOk result (AreTernaryLayersFor design.now) }
    {
        let mut rows = Seq::new(alloc);
        for _ in 0..LAYERS {
            rows.push(Seq::filled(alloc, Tern::Zero, design.nets)?)?;
        }
        Ok(Layers3 { rows })
    }
}

/// The capture of an end over the last of the layers.
fn capture_last(design: &Design, claim: &Claim, cycle: &Cycle, rows: &Seq<Seq<Tern>>) -> Tern
    requires sound { IsSound design.now }
    requires end { IsEndIn design.now claim.now.end }
    requires bits { length cycle.now.bits ≡ length design.now.regs }
    requires rows { length claim.now.through < length rows.now }
    requires lens { (m : ℕ) → m ≤ length claim.now.through → length (row_at rows.now m) ≡ design.now.nets }
    ensures { IsTernaryCaptureOver design.now claim.now.through rows.now claim.now.end cycle.now result }
{
    let sets = &claim.through;
    match &claim.end {
        End::Reg(r) => {
            let reg = design.regs.item(*r);
            let own = cycle.bits.at(*r);
            let args = late_reg_args(sets, rows, *r, reg, Tern::of_bit(own));
            cell_capture(reg, &args)
        }
        End::Output(o) => {
            let net = design.outputs.at(*o);
            layer_pin(sets, rows, sets.len(), PinRef::OutPort(*o), net)
        }
    }
}

/// The ternary capture: what the claim's end captures in a settled cycle where its start, in the first layer, is
/// unknown. It is unknown where the end may see a glitch.
pub fn capture3(design: &Design, claim: &Claim, cycle: &Cycle, layers: &mut Layers3) -> Tern
    requires sound { IsSound design.now }
    requires fits { Fits design.now claim.now }
    requires settled { IsSettled design.now cycle.now }
    requires room { AreTernaryLayersFor design.now layers.old }
    ensures ternary { IsTernaryCapture design.now claim.now cycle.now result }
    ensures only { (other : TernValue) → IsTernaryCapture design.now claim.now cycle.now other → other ≡ result }
    // Where it is a bit, so are the capture and each late capture.
    ensures steady { (b : Bool) → result ≡ tern_of b → IsSteady design.now claim.now cycle.now b }
    ensures room { AreTernaryLayersFor design.now layers.new }
{
    let unknown = Tern::Unknown;
    make_layers(
        design,
        claim,
        unknown,
        unknown,
        &cycle.nets,
        &mut layers.rows,
    );
    capture_last(design, claim, cycle, &layers.rows)
}
