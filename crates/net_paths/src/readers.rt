//! The pins that read each net.
ghost use Rattle.std.specs.Prelude.{◌≡◌, ◌+◌, ◌<◌, ◌++◌, ◌∷◌, [], ℕ, All, IfOk, OnOk, Some, length, slice_get, slice_set, replicate};
ghost use Rattle.net_model.specs.Netlist.{IsSound, AllBelow};
ghost use Rattle.net_paths.specs.Readers.{readers_at, AreReaders, AreReadersOf, IsAdded, IsGatePin, IsRegPin, IsPortPin, NoPin};
ghost use Rattle.net_model.specs.Paths.{LeadsTo};
ghost use Rattle.net_model.specs.declared.claims.PinRef.TheVariants.{Net};

use net_model::{Design, PinRef};
use sdcv_base::Seq;
use std::alloc::{AllocError, Global};

/// The pins that read each net: input pins of gates and registers, and output ports, in that order.
#[derive(Drop)]
pub struct Readers {
    pub rows: Vec<Seq<PinRef>>,
}

impl Readers {
    /// The readers of each net of a design.
    pub fn of(alloc: Global, design: &Design) -> Result<Readers, AllocError>
        requires sound { IsSound design.now }
        ensures { IfOk result (λ readers. AreReaders design.now readers.rows.items) }
    {
        let mut readers = Readers::none(alloc, design.nets)?;
        readers.add_gates(design)?;
        readers.add_regs(design)?;
        readers.add_outputs(design)?;
        Ok(readers)
    }

    /// The pins that read a net.
    pub fn of_net(&self, net: usize) -> &[PinRef]
        requires { net < length self.now.rows.items }
        ensures { result.now ≡ readers_at self.now.rows.items net }
    {
        self.rows[net].as_slice()
    }

    fn none(alloc: Global, nets: usize) -> Result<Readers, AllocError>
        ensures { IfOk result (λ readers. readers.rows.items ≡ replicate nets []) }
    {
        let mut rows = Vec::new(alloc);
        for _ in 0..nets {
            rows.push(Seq::new(alloc))?;
        }
        Ok(Readers { rows })
    }

    // One more pin that reads a net.
    fn add(&mut self, net: usize, pin: PinRef) -> Result<(), AllocError>
        requires { net < length self.old.rows.items }
        ensures { OnOk result (IsAdded net pin self.old.rows.items self.new.rows.items) }
    {
        let row = &mut self.rows[net];
        row.push(pin)?;
        Ok(())
    }

    fn add_gates(&mut self, design: &Design) -> Result<(), AllocError>
        requires sound { IsSound design.now }
        requires none { AreReadersOf design.now NoPin self.old.rows.items }
        ensures { OnOk result (AreReadersOf design.now (IsGatePin (length design.now.gates) 0) self.new.rows.items) }
    {
        for k in 0..design.gates.len() {
            self.add_gate(design, k)?;
        }
        Ok(())
    }

    fn add_gate(&mut self, design: &Design, k: usize) -> Result<(), AllocError>
        requires sound { IsSound design.now }
        requires gate { k < length design.now.gates }
        requires before { AreReadersOf design.now (IsGatePin k 0) self.old.rows.items }
        ensures { OnOk result (AreReadersOf design.now (IsGatePin (k + 1) 0) self.new.rows.items) }
    {
        let gate = design.gates.item(k);
        for (i, net) in gate.ins.as_slice().iter().enumerate() {
            self.add(*net, PinRef::GateIn(k, i))?;
        }
        Ok(())
    }

    fn add_regs(&mut self, design: &Design) -> Result<(), AllocError>
        requires sound { IsSound design.now }
        requires before { AreReadersOf design.now (IsRegPin 0 0) self.old.rows.items }
        ensures { OnOk result (AreReadersOf design.now (IsRegPin (length design.now.regs) 0) self.new.rows.items) }
    {
        for r in 0..design.regs.len() {
            self.add_reg(design, r)?;
        }
        Ok(())
    }

    fn add_reg(&mut self, design: &Design, r: usize) -> Result<(), AllocError>
        requires sound { IsSound design.now }
        requires reg { r < length design.now.regs }
        requires before { AreReadersOf design.now (IsRegPin r 0) self.old.rows.items }
        ensures { OnOk result (AreReadersOf design.now (IsRegPin (r + 1) 0) self.new.rows.items) }
    {
        let reg = design.regs.item(r);
        for (i, net) in reg.ins.as_slice().iter().enumerate() {
            self.add(*net, PinRef::RegIn(r, i))?;
        }
        Ok(())
    }

    fn add_outputs(&mut self, design: &Design) -> Result<(), AllocError>
        requires sound { IsSound design.now }
        requires before { AreReadersOf design.now (IsPortPin 0) self.old.rows.items }
        ensures { OnOk result (AreReadersOf design.now (IsPortPin (length design.now.outputs)) self.new.rows.items) }
    {
        for (o, net) in design.outputs.as_slice().iter().enumerate() {
            self.add(*net, PinRef::OutPort(o))?;
        }
        Ok(())
    }
}
