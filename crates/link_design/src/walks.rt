//! A walk down from the clock, net by net.
ghost use Rattle.std.specs.Prelude.{◌≡◌, ◌<◌, ◌+◌, [], length, All, IfOk, OnOk};
ghost use Rattle.std.specs.List.{fold};
ghost use Rattle.net_model.specs.Netlist.{AllBelow};
ghost use Rattle.link_design.specs.Lawful.{IsLawfulCircuit, IsLawfulPart};
ghost use Rattle.link_design.specs.Readers.{AreReaders};
ghost use Rattle.link_design.specs.Walks.{branch_of, reached, clock_reached, gate_reached, handed, IsReachable, AreRows, IsWalkTo};

use crate::branches::Branch;
use crate::marks::{gate_above, is_marked};
use crate::readers::ClockReaders;
use link_defs::{Circuit, Part};
use net_model::Gate;
use sdcv_base::Seq;
use std::alloc::{AllocError, Global};

/// The nets that a walk has come to, each once in their order, and as rows over the nets: marks of those, marks of those of
/// them after an odd number of inversions, the clock gate above each of them, if there is one, and marks of those of them
/// that are lost.
///
/// What a walk does not know: how many of its nets have handed the clock on. Its caller goes through them in their order.
#[derive(Drop)]
pub(crate) struct Walk {
    pub(crate) nets: Seq<usize>,
    pub(crate) tree: Seq<bool>,
    pub(crate) odd: Seq<bool>,
    pub(crate) above: Seq<Option<usize>>,
    pub(crate) lost: Seq<bool>,
}

impl Walk {
    /// The walk that has come to the clock's nets.
    pub(crate) fn at_clocks(alloc: Global, circuit: &Circuit) -> Result<Walk, AllocError>
        requires { IsLawfulCircuit circuit.now }
        ensures { IfOk result (IsWalkTo circuit.now 0) }
    {
        let mut walk = Walk::at_none(alloc, circuit.nets)?;
        walk.reach_clocks(circuit.clocks.as_slice())?;
        Ok(walk)
    }

    /// Hands the clock on from the net at a place of the walk.
    pub(crate) fn visit(
        &mut self,
        circuit: &Circuit,
        readers: &ClockReaders,
        at: usize,
    ) -> Result<(), AllocError>
        requires lawful { IsLawfulCircuit circuit.now }
        requires readers { AreReaders circuit.now readers.now.rows.items }
        requires walk { IsWalkTo circuit.now at self.old }
        requires here { at < length self.old.nets }
        ensures { OnOk result (IsWalkTo circuit.now (at + 1) self.new) }
    {
        let net = self.nets.at(at);
        let branch = self.branch_of(net);
        for place in readers.of_net(net) {
            self.hand_on(circuit.parts.item(*place), branch)?;
        }
        Ok(())
    }

    /// The branch on which the walk has come to a net.
    fn branch_of(&self, net: usize) -> Branch
        ensures { result ≡ branch_of self.now net }
    {
        Branch {
            odd: is_marked(&self.odd, net),
            above: gate_above(&self.above, net),
            lost: is_marked(&self.lost, net),
        }
    }

    /// Comes to all nets to which a part hands the clock on, from a net on a branch.
    fn hand_on(&mut self, part: &Part, branch: Branch) -> Result<(), AllocError>
        requires part { IsLawfulPart (length self.old.tree) part.now }
        requires odd { length self.old.odd ≡ length self.old.tree }
        requires above { length self.old.above ≡ length self.old.tree }
        requires lost { length self.old.lost ≡ length self.old.tree }
        ensures { OnOk result (self.new ≡ handed branch self.old part.now) }
    {
        match part {
            Part::Comb { gates, .. } => self.reach_gates(gates.as_slice(), branch),
            Part::Flop { .. } => Ok(()),
            Part::Gate { out, .. } => self.reach(*out, branch.past_gate(*out)),
        }
    }

    fn reach_gates(&mut self, gates: &[Gate], branch: Branch) -> Result<(), AllocError>
        requires gates { All (IsReachable (length self.old.tree)) gates.now }
        requires odd { length self.old.odd ≡ length self.old.tree }
        requires above { length self.old.above ≡ length self.old.tree }
        requires lost { length self.old.lost ≡ length self.old.tree }
        ensures { OnOk result (self.new ≡ fold (gate_reached branch) self.old gates.now) }
    {
        for gate in gates {
            self.reach(gate.out, branch.past_buffer(&gate.func))?;
        }
        Ok(())
    }

    fn reach_clocks(&mut self, clocks: &[usize]) -> Result<(), AllocError>
        requires clocks { AllBelow (length self.old.tree) clocks.now }
        requires odd { length self.old.odd ≡ length self.old.tree }
        requires above { length self.old.above ≡ length self.old.tree }
        requires lost { length self.old.lost ≡ length self.old.tree }
        ensures { OnOk result (self.new ≡ fold clock_reached self.old clocks.now) }
    {
        for net in clocks {
            self.reach(*net, Branch::root())?;
        }
        Ok(())
    }

    /// Comes to a net on a branch, unless the walk has come to it before.
    fn reach(&mut self, net: usize, branch: Branch) -> Result<(), AllocError>
        requires tree { net < length self.old.tree }
        requires odd { net < length self.old.odd }
        requires above { net < length self.old.above }
        requires lost { net < length self.old.lost }
        ensures { OnOk result (self.new ≡ reached net branch self.old) }
    {
        if is_marked(&self.tree, net) {
            return Ok(());
        }
        self.nets.push(net)?;
        self.tree.put(net, true);
        self.odd.put(net, branch.odd);
        self.above.put(net, branch.above);
        self.lost.put(net, branch.lost);
        Ok(())
    }

    fn at_none(alloc: Global, nets: usize) -> Result<Walk, AllocError>
        ensures nets { IfOk result (λ walk. walk.nets ≡ []) }
        ensures rows { IfOk result (AreRows nets) }
    {
        let no_gate: Option<usize> = None;
        Ok(Walk {
            nets: Seq::new(alloc),
            tree: Seq::filled(alloc, false, nets)?,
            odd: Seq::filled(alloc, false, nets)?,
            above: Seq::filled(alloc, no_gate, nets)?,
            lost: Seq::filled(alloc, false, nets)?,
        })
    }
}
