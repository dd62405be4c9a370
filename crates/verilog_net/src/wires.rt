//! The wires of an expression.
ghost use Rattle.std.specs.Prelude.{◌≡◌, ◌++◌, ℕ, map, OnOk};
ghost use Rattle.std.specs.List.{range_with_len};
ghost use Rattle.texts.specs.Rules.{Gives};
ghost use Rattle.verilog_scope.specs.Fails.{Fails};
ghost use Rattle.netlist_types.specs.declared.sources.Wire.TheVariants as wire;
ghost use Rattle.verilog_net.specs.Wires as spec;

use netlist_types::Wire;
use sdcv_base::Seq;
use std::alloc::{AllocError, Global};
use verilog_scope::{Run, Scope, VerFault};
use verilog_syntax::{Part, PartDecl, TermDecl};

/// The wires of an expression, the most significant bit first. A name that stands for no net, and bits that a name does
/// not have, are Syntax at their part.
pub fn wires_of(alloc: Global, scope: &Scope, parts: &[PartDecl]) -> Result<Seq<Wire>, VerFault>
    ensures { Gives Fails (λ wires. wires) result (spec.wires_of scope.now parts.now) }
{
    let mut found = Seq::new(alloc);
    for part in parts {
        add_part(alloc, scope, &mut found, part)?;
    }
    Ok(found)
}

#[tactic(auto, unfolding(crate::specs::Wires::add_part))]
fn add_part(
    alloc: Global,
    scope: &Scope,
    found: &mut Seq<Wire>,
    part: &PartDecl,
) -> Result<(), VerFault>
    ensures { Gives Fails (λ _. found.new) result (spec.add_part scope.now found.old part.now) }
{
    match &part.part {
        Part::Bits(bits) => {
            make_room(alloc, found, bits.len())?;
            push_bits(found, bits.as_slice())?;
            Ok(())
        }
        Part::Net { name, select } => match scope.run(name, select)? {
            None => Err(VerFault::Syntax(part.offset)),
            Some(run) => {
                make_room(alloc, found, run.count)?;
                push_run(found, &run)?;
                Ok(())
            }
        },
    }
}

/// Makes an empty list one with room for so many wires.
fn make_room(alloc: Global, found: &mut Seq<Wire>, count: usize) -> Result<(), AllocError>
    ensures { found.new ≡ found.old }
{
    if found.is_empty() {
        *found = Seq::from_vec(Vec::with_capacity(alloc, count)?);
    }
    Ok(())
}

fn push_bits(found: &mut Seq<Wire>, bits: &[bool]) -> Result<(), AllocError>
    ensures { OnOk result (found.new ≡ found.old ++ spec.constants bits.now) }
{
    for bit in bits {
        found.push(Wire::Const(*bit))?;
    }
    Ok(())
}

/// Appends the nets of a run. It wants memory where they are more than can be numbered.
fn push_run(found: &mut Seq<Wire>, run: &Run) -> Result<(), AllocError>
    ensures { OnOk result (found.new ≡ found.old ++ spec.nets run.now) }
{
    if run.first.checked_add(run.count).is_none() {
        return Err(AllocError);
    }
    for i in 0..run.count {
        found.push(Wire::Net(run.first + i))?;
    }
    Ok(())
}

fn only(offset: usize, wires: &[Wire]) -> Result<Wire, VerFault>
    ensures { Gives Fails (λ wire. wire) result (spec.only offset wires.now) }
{
    match wires {
        [wire] => Ok(*wire),
        _ => Err(VerFault::Width(offset)),
    }
}

/// The net of a wire that is driven; a constant is Syntax.
pub fn driven(offset: usize, wire: &Wire) -> Result<usize, VerFault>
    ensures { Gives Fails (λ net. net) result (spec.driven offset wire.now) }
{
    match wire {
        Wire::Const(_) => Err(VerFault::Syntax(offset)),
        Wire::Net(net) => Ok(*net),
    }
}

/// The wire of a terminal. One that is not one bit wide is Width at its first byte.
#[tactic(auto, unfolding(crate::specs::Wires::wire_of))]
pub fn wire_of(alloc: Global, scope: &Scope, term: &TermDecl) -> Result<Wire, VerFault>
    ensures { Gives Fails (λ wire. wire) result (spec.wire_of scope.now term.now) }
{
    let wires = wires_of(alloc, scope, term.parts.as_slice())?;
    only(term.offset, wires.as_slice())
}

/// The net of an output terminal.
#[tactic(auto, unfolding(crate::specs::Wires::net_of))]
pub fn net_of(alloc: Global, scope: &Scope, term: &TermDecl) -> Result<usize, VerFault>
    ensures { Gives Fails (λ net. net) result (spec.net_of scope.now term.now) }
{
    let wire = wire_of(alloc, scope, term)?;
    driven(term.offset, &wire)
}
