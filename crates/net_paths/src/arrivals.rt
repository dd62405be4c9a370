//! The places of the ends at whose pins paths arrive.
ghost use Rattle.std.specs.Prelude.{◌<◌, IfOk, OnOk};
ghost use Rattle.net_model.specs.Paths.{LeadsTo};
ghost use Rattle.net_model.specs.declared.claims.PinRef.TheVariants.{Net};
ghost use Rattle.net_paths.specs.Aims.{AreRoomy};
ghost use Rattle.net_paths.specs.Arrivals.{IsReach, IsArrival, ArrivesFrom, AreArrivals, Adds};

use crate::aims::Places;
use crate::paths::meets_all;
use crate::reaches::Reach;
use net_model::PinRef;
use std::alloc::{AllocError, Global};

/// The places of the ends at whose pins all sets are met, in no order, some several times.
pub(crate) fn arrivals(
    alloc: Global,
    reach: &Reach,
    places: &Places,
) -> Result<Vec<usize>, AllocError>
    requires reach { IsReach reach.now }
    requires room { AreRoomy reach.now.launch.now.design.now places.now }
    ensures { IfOk result (λ found. AreArrivals reach.now places.now found.items) }
{
    let mut found = Vec::new(alloc);
    for net in reach.cone.nets.as_slice() {
        add_net(reach, places, *net, &mut found)?;
    }
    Ok(found)
}

// Adds the places of the ends that read a net.
fn add_net(
    reach: &Reach,
    places: &Places,
    net: usize,
    found: &mut Vec<usize>,
) -> Result<(), AllocError>
    requires reach { IsReach reach.now }
    requires room { AreRoomy reach.now.launch.now.design.now places.now }
    requires net { net < reach.now.launch.now.design.now.nets }
    ensures { OnOk result (Adds (ArrivesFrom reach.now places.now net) found.old.items found.new.items) }
{
    for pin in reach.readers.of_net(net) {
        add_pin(reach, places, net, *pin, found)?;
    }
    Ok(())
}

// Adds the place of the end that has this pin.
fn add_pin(
    reach: &Reach,
    places: &Places,
    net: usize,
    pin: PinRef,
    found: &mut Vec<usize>,
) -> Result<(), AllocError>
    requires reach { IsReach reach.now }
    requires room { AreRoomy reach.now.launch.now.design.now places.now }
    requires net { net < reach.now.launch.now.design.now.nets }
    requires reads { LeadsTo reach.now.launch.now.design.now (Net net) pin }
    ensures { OnOk result (Adds (IsArrival reach.now places.now net pin) found.old.items found.new.items) }
{
    if let Some(place) = places.of_pin(pin) {
        if meets_all(reach.launch.sets, &reach.cone.levels, pin, net) {
            found.push(place)?;
        }
    }
    Ok(())
}
