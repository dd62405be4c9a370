//! The driver of each net, as a row over the nets.
ghost use Rattle.std.specs.Prelude.{◌≡◌, ◌≤◌, ℕ, ◌==◌, ◌<◌, length, count_by, slice_get, Some, IfOk, IfErr, OnOk};
ghost use Rattle.net_model.specs.Netlist.{AllBelow};
ghost use Rattle.link_defs.specs.Circuits.{all_drivers as spec_drivers};
ghost use Rattle.link_design.specs.Lawful.{IsLawfulCircuit};
ghost use Rattle.link_design.specs.Rows.{IsDriverRow, IsTwice};

use crate::faults::CircuitFault;
use crate::lists::all_drivers;
use link_defs::Circuit;
use sdcv_base::Seq;
use std::alloc::Global;

/// For each net the place of its driver among these, and their number where it has none.
pub fn driver_row(
    alloc: Global,
    drivers: &Seq<usize>,
    nets: usize,
) -> Result<Seq<usize>, CircuitFault>
    requires { AllBelow nets drivers.now }
    ensures ok { IfOk result (λ row. IsDriverRow drivers.now nets row) }
    ensures once { OnOk result ((net : ℕ) → count_by (λ m. m == net) drivers.now ≤ 1) }
    ensures err { IfErr result (IsTwice drivers.now) }
{
    let none = drivers.len();
    let mut row = Seq::filled(alloc, none, nets)?;
    for place in 0..drivers.len() {
        let net = drivers.at(place);
        if row.at(net) < none {
            return Err(CircuitFault::ManyDrivers(net));
        }
        row.put(net, place);
    }
    Ok(row)
}

/// Refuses a net of two drivers, and nothing else.
pub fn check_once(alloc: Global, circuit: &Circuit) -> Result<(), CircuitFault>
    requires { IsLawfulCircuit circuit.now }
    ensures ok { OnOk result ((net : ℕ) → count_by (λ m. m == net) (spec_drivers circuit.now) ≤ 1) }
    ensures err { IfErr result (IsTwice (spec_drivers circuit.now)) }
{
    let drivers = all_drivers(alloc, circuit)?;
    driver_row(alloc, &drivers, circuit.nets)?;
    Ok(())
}
