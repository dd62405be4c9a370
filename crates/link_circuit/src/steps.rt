//! One step of flattening.
ghost use Rattle.std.specs.Prelude.{◌≡◌, ◌<◌, ◌≤◌, ◌+◌, length, cond, true, slice_get, IfSome, IfOk, IfErr, OnOk};
ghost use Rattle.std.specs.Option.{option_copied};
ghost use Rattle.sdcv_base.specs.declared.limits.LimitName.TheVariants as what;
ghost use Rattle.netlist_types.specs.Lawful.{IsLawfulItem};
ghost use Rattle.linked_types.specs.declared.faults.LinkFault.TheVariants as fault;
ghost use Rattle.link_defs.specs.Faults.{is_instance as counts};
ghost use Rattle.link_items.specs.Items.{module_at};
ghost use Rattle.link_circuit.specs.Flats.{AreScopes};
ghost use Rattle.link_circuit.specs.Frames.{instance_at, scope_at};
ghost use Rattle.link_circuit.specs.Steps.{IsTaken, IsRefused, IsEntered};
ghost use Rattle.link_circuit.specs.UnderWay.{Goes, Breaks};

use crate::flats::Flattened;
use crate::frames::Frame;
use graph_order::Stack;
use link_items::{Instance, Netlist, add_item};
use linked_types::LinkFault;
use netlist_types::Item;
use sdcv_base::LimitName;
use std::alloc::{AllocError, Global};

/// How many modules, cells and primitives may stand in a flat netlist.
const MOST_INSTANCES: usize = 1_000_000;

/// In how many module instances one of them may stand.
const MOST_LEVELS: usize = 256;

/// Takes the next item of an instance; an instance whose items are all taken is left.
pub(crate) fn step(
    alloc: Global,
    netlist: &Netlist,
    flat: &mut Flattened,
    stack: &mut Stack<Frame>,
    frame: Frame,
) -> Result<(), LinkFault>
    requires frame { frame.scope < length flat.old.scopes }
    requires scopes { AreScopes netlist.now.source.now flat.old.scopes }
    ensures ok { OnOk result (Goes netlist.now.source.now netlist.now.library.now frame stack.old flat.old stack.new flat.new) }
    ensures err { IfErr result (Breaks netlist.now.source.now netlist.now.library.now frame stack.old flat.old) }
{
    let body = flat.scopes.item(frame.scope).body;
    match item_at(netlist, body, frame.next) {
        Some(item) => {
            let inner = take(alloc, netlist, flat, frame, item)?;
            enter(flat, stack, frame, inner)?;
            Ok(())
        }
        None => Ok(()),
    }
}

/// The item of a module at a place, if it has one there.
fn item_at<'a>(netlist: &'a Netlist, body: usize, next: usize) -> Option<&'a Item>
    requires { body < length netlist.now.source.now.modules }
    ensures item { option_copied result ≡ slice_get (module_at netlist.now.source.now body).items next }
    ensures room { IfSome result (λ _. next + 1 < 18446744073709551616) }
{
    netlist.source.modules.item(body).items.as_slice().get(next)
}

/// Adds the next item of an instance.
fn take(
    alloc: Global,
    netlist: &Netlist,
    flat: &mut Flattened,
    frame: Frame,
    item: &Item,
) -> Result<Option<Instance>, LinkFault>
    requires frame { frame.scope < length flat.old.scopes }
    requires item { IsLawfulItem netlist.now.source.now (length (instance_at flat.old.scopes frame.scope).nets) item.now }
    ensures ok { IfOk result (λ inner. IsTaken netlist.now.source.now netlist.now.library.now (scope_at netlist.now.source.now flat.old.scopes frame.scope)
        item.now inner flat.old flat.new) }
    ensures err { IfErr result (IsRefused netlist.now.source.now netlist.now.library.now (scope_at netlist.now.source.now flat.old.scopes frame.scope)
        item.now flat.old.instances) }
{
    let instances = counted(flat.instances, item)?;
    let at = flat.scopes.item(frame.scope);
    expect_low(at.depth, item)?;
    let inner = add_item(alloc, netlist, at, item, &mut flat.made)?;
    flat.instances = instances;
    Ok(inner)
}

/// How many instances there are with an item more.
fn counted(instances: usize, item: &Item) -> Result<usize, LinkFault>
    ensures ok { IfOk result (λ n. (n ≡ instances + cond (counts item.now) 1 0) × (instances ≤ 1000000 → n ≤ 1000000)) }
    ensures err { IfErr result (λ e. (e ≡ fault.Limit what.Instances 1000001) × (counts item.now ≡ true) × (1000000 ≤ instances)) }
{
    if !is_instance(item) {
        return Ok(instances);
    }
    if instances >= MOST_INSTANCES {
        return Err(LinkFault::Limit(LimitName::Instances, 1_000_001));
    }
    Ok(instances + 1)
}

/// Refuses an instance or a primitive that stands in more module instances than are allowed.
fn expect_low(depth: usize, item: &Item) -> Result<(), LinkFault>
    ensures ok { OnOk result (counts item.now ≡ true → depth ≤ 256) }
    ensures err { IfErr result (λ e. (e ≡ fault.Limit what.Hierarchy 257) × (counts item.now ≡ true) × (256 < depth)) }
{
    if is_instance(item) && depth > MOST_LEVELS {
        return Err(LinkFault::Limit(LimitName::Hierarchy, 257));
    }
    Ok(())
}

/// Whether an item is an instance or a primitive.
fn is_instance(item: &Item) -> bool
    ensures { result ≡ counts item.now }
{
    match item {
        Item::Inst { .. } => true,
        Item::Prim { .. } => true,
        Item::Copy { .. } => false,
    }
}

/// Goes on with the item after this one, and before that with what stands in it, if it is an instance of a module.
fn enter(
    flat: &mut Flattened,
    stack: &mut Stack<Frame>,
    frame: Frame,
    inner: Option<Instance>,
) -> Result<(), AllocError>
    requires { frame.next + 1 < 18446744073709551616 }
    ensures { OnOk result (IsEntered frame inner stack.old flat.old stack.new flat.new) }
{
    stack.push(Frame {
        scope: frame.scope,
        next: frame.next + 1,
    })?;
    if let Some(inner) = inner {
        let scope = flat.scopes.len();
        stack.push(Frame { scope, next: 0 })?;
        flat.scopes.push(inner)?;
    }
    Ok(())
}
