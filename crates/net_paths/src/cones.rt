//! The nets to which paths lead from one start.
ghost use Rattle.std.specs.Prelude.{◌≡◌, ◌+◌, ◌<◌, ◌≤◌, ◌↔◌, IsTrue, OnOk, IfOk, OnErr, length, map, Some, None, ◌∷◌, []};
ghost use Rattle.net_model.specs.Netlist.{AllBelow};
ghost use Rattle.net_model.specs.Pins.{start_nets};
ghost use Rattle.net_model.specs.Paths.{LeadsTo};
ghost use Rattle.net_model.specs.declared.netlist.RegOut.{RegOut};
ghost use Rattle.net_model.specs.declared.claims.PinRef.TheVariants.{Net};
ghost use Rattle.net_paths.specs.Launches.{IsLaunch};
ghost use Rattle.net_paths.specs.Levels.{AllHaveLevels, level_at, advanced, Reaches, IsAtLeast};
ghost use Rattle.net_paths.specs.Readers.{AreReaders};
ghost use Rattle.net_paths.specs.Cones.{IsGrowing, IsEmptyCone, AreNoted, IsRaised, IsGrown, IsToldAt, IsPassed, IsUnchanged};

use crate::launches::Launch;
use crate::readers::Readers;
use crate::sets::advance;
use net_model::{PinRef, PinSet, RegOut, Start};
use sdcv_base::Seq;
use std::alloc::{AllocError, Global};

/// The nets to which paths lead from one start, each with the greatest number of through sets met on the way.
///
/// `nets` has each net that has a level, some several times, so that a cone is emptied in the time in which it grew. Those
/// before `told` have told their readers the level that they have now, or stand once more from `told` on.
#[derive(Drop)]
pub(crate) struct Cone {
    pub levels: Seq<Option<usize>>,
    pub nets: Vec<usize>,
    pub told: usize,
}

impl Cone {
    /// No net has a level.
    pub fn new(alloc: Global, nets: usize) -> Result<Cone, AllocError>
        ensures { IfOk result (IsEmptyCone nets) }
    {
        Ok(Cone {
            levels: Seq::filled(alloc, None, nets)?,
            nets: Vec::new(alloc),
            told: 0,
        })
    }

    /// Gives each net its level: the greatest number of sets that a path from the start to it meets. It looks at the
    /// nets of these paths and their readers alone, at each once for each level that it comes to have.
    pub fn grow(&mut self, launch: &Launch, readers: &Readers) -> Result<(), AllocError>
        requires launch { IsLaunch launch.now }
        requires readers { AreReaders launch.now.design.now readers.now.rows.items }
        requires empty { IsEmptyCone launch.now.design.now.nets self.old }
        ensures levels { OnOk result (AllHaveLevels launch.now.design.now launch.now.start.now launch.now.sets.now self.new.levels) }
        ensures noted { AreNoted launch.now.design.now.nets self.new }
    {
        self.put_start(launch)?;
        while self.told < self.nets.len() {
            self.tell(launch, readers)?;
            self.told += 1;
        }
        Ok(())
    }

    // Tells the level of the next noted net to its readers.
    fn tell(&mut self, launch: &Launch, readers: &Readers) -> Result<(), AllocError>
        requires launch { IsLaunch launch.now }
        requires readers { AreReaders launch.now.design.now readers.now.rows.items }
        requires growing { IsGrowing launch.now.design.now launch.now.start.now launch.now.sets.now self.old self.old.told }
        requires here { self.old.told < length self.old.nets.items }
        ensures growing { OnOk result (IsGrowing launch.now.design.now launch.now.start.now launch.now.sets.now self.new (self.old.told + 1)) }
        ensures noted { AreNoted launch.now.design.now.nets self.new }
        ensures longer { OnOk result (length self.old.nets.items ≤ length self.new.nets.items) }
        ensures place { self.new.told ≡ self.old.told }
    {
        let net = self.nets[self.told];
        if let Some(met) = self.levels.at(net) {
            self.tell_all(launch, readers, net, met)?;
        }
        Ok(())
    }

    // Tells all readers of a net that so many sets can have been met there.
    fn tell_all(
        &mut self,
        launch: &Launch,
        readers: &Readers,
        net: usize,
        met: usize,
    ) -> Result<(), AllocError>
        requires launch { IsLaunch launch.now }
        requires readers { AreReaders launch.now.design.now readers.now.rows.items }
        requires growing { IsGrowing launch.now.design.now launch.now.start.now launch.now.sets.now self.old self.old.told }
        requires here { self.old.told < length self.old.nets.items }
        requires net { net < launch.now.design.now.nets }
        requires level { level_at self.old.levels net ≡ Some met }
        ensures growing { IsGrowing launch.now.design.now launch.now.start.now launch.now.sets.now self.new self.old.told }
        ensures told { OnOk result (IsToldAt launch.now.design.now launch.now.sets.now net self.new self.old.told) }
        ensures grown { IsGrown self.old self.new }
    {
        for pin in readers.of_net(net) {
            self.pass(launch, net, met, *pin)?;
        }
        Ok(())
    }

    // Gives the output of the gate, where the pin is one of a gate, the level that a path through the pin has.
    fn pass(
        &mut self,
        launch: &Launch,
        net: usize,
        met: usize,
        pin: PinRef,
    ) -> Result<(), AllocError>
        requires launch { IsLaunch launch.now }
        requires leads { LeadsTo launch.now.design.now (Net net) pin }
        requires reached { Reaches launch.now.design.now launch.now.start.now launch.now.sets.now (Net net) met }
        requires growing { IsGrowing launch.now.design.now launch.now.start.now launch.now.sets.now self.old self.old.told }
        requires here { self.old.told ≤ length self.old.nets.items }
        ensures growing { IsGrowing launch.now.design.now launch.now.start.now launch.now.sets.now self.new self.old.told }
        ensures passed { OnOk result (IsPassed launch.now.design.now launch.now.sets.now met pin self.new.levels) }
        ensures grown { IsGrown self.old self.new }
    {
        if let PinRef::GateIn(gate, _) = pin {
            let out = launch.design.gates.item(gate).out;
            let into = advance(launch.sets, met, pin);
            let beyond = advance(launch.sets, into, PinRef::Net(out));
            self.raise(out, beyond)?;
        }
        Ok(())
    }

    // Gives a net at least this level.
    fn raise(&mut self, net: usize, met: usize) -> Result<(), AllocError>
        requires { net < length self.old.levels }
        ensures raised { OnOk result (IsRaised net met self.old self.new) }
        ensures unchanged { OnErr result (IsUnchanged self.old self.new) }
    {
        if self.has_level(net, met) {
            return Ok(());
        }
        self.nets.push(net)?;
        self.levels.put(net, Some(met));
        Ok(())
    }

    fn has_level(&self, net: usize, met: usize) -> bool
        requires { net < length self.now.levels }
        ensures { IsTrue result ↔ IsAtLeast met (level_at self.now.levels net) }
    {
        match self.levels.at(net) {
            Some(level) => met <= level,
            None => false,
        }
    }

    fn put_start(&mut self, launch: &Launch) -> Result<(), AllocError>
        requires launch { IsLaunch launch.now }
        requires empty { IsEmptyCone launch.now.design.now.nets self.old }
        ensures growing { OnOk result (IsGrowing launch.now.design.now launch.now.start.now launch.now.sets.now self.new 0) }
        ensures noted { AreNoted launch.now.design.now.nets self.new }
        ensures place { self.new.told ≡ 0 }
    {
        match launch.start {
            Start::Reg(reg) => self.put_outs(launch, launch.design.regs.item(*reg).outs.as_slice()),
            Start::Input(input) => {
                self.put_net(launch.sets, launch.design.inputs.at(*input))?;
                Ok(())
            }
        }
    }

    fn put_net(&mut self, sets: &Seq<PinSet>, net: usize) -> Result<(), AllocError>
        requires { net < length self.old.levels }
        ensures raised { OnOk result (IsRaised net (advanced sets.now 0 (Net net)) self.old self.new) }
        ensures unchanged { OnErr result (IsUnchanged self.old self.new) }
    {
        let met = advance(sets, 0, PinRef::Net(net));
        self.raise(net, met)
    }

    fn put_outs(&mut self, launch: &Launch, outs: &[RegOut]) -> Result<(), AllocError>
        requires empty { IsEmptyCone launch.now.design.now.nets self.old }
        requires outs { start_nets launch.now.design.now launch.now.start.now ≡ map (λ (o : RegOut). o.net) outs.now }
        requires below { AllBelow launch.now.design.now.nets (map (λ (o : RegOut). o.net) outs.now) }
        ensures growing { OnOk result (IsGrowing launch.now.design.now launch.now.start.now launch.now.sets.now self.new 0) }
        ensures noted { AreNoted launch.now.design.now.nets self.new }
        ensures place { self.new.told ≡ 0 }
    {
        for out in outs {
            self.put_net(launch.sets, out.net)?;
        }
        Ok(())
    }

    /// Takes all levels away.
    pub fn clear(&mut self, nets: usize)
        requires { AreNoted nets self.old }
        ensures { IsEmptyCone nets self.new }
    {
        for k in 0..self.nets.len() {
            self.levels.put(self.nets[k], None);
        }
        self.nets.clear();
        self.told = 0;
    }
}
