//! A cycle in which the start of a claim comes late, walked back from the end.
ghost use Rattle.std.specs.Prelude.{◌≡◌, ◌≤◌, ◌<◌, ◌∷◌, [], IfOk, IfSome, length};
ghost use Rattle.net_model.specs.Netlist.{AllBelow};
ghost use Rattle.shown_runs.specs.LateCycles.{IsLateCycle, IsSourceOf, IsSourceAt, IsRest};

use crate::late_layers::LateLayers;
use crate::sources::{Reader, Source, free_layer};
use net_model::{Claim, Cycle, Design, End, PinRef};
use sdcv_base::Seq;
use std::alloc::{AllocError, Global};

/// A settled cycle, with the layers in which the start of a claim comes late, having shown the stale bit (`IsLateCycle`).
#[derive(Drop)]
pub(crate) struct LateCycle<'a> {
    pub design: &'a Design,
    pub claim: &'a Claim,
    pub cycle: &'a Cycle,
    pub stale: bool,
    pub layers: LateLayers,
}

/// Late nets of a path from a source to the end, the last one first.
#[derive(Drop)]
pub(crate) struct Rest {
    pub source: Source,
    pub nets: Vec<usize>,
}

impl<'a> LateCycle<'a> {
    /// The source of what a pin reads in a layer, where it is late.
    fn source(&self, layer: usize, pin: PinRef, net: usize) -> Option<Source>
        requires late { IsLateCycle self.now }
        requires layer { layer ≤ length self.now.claim.now.through }
        requires net { net < self.now.design.now.nets }
        ensures { IfSome result (IsSourceOf self.now layer pin net) }
    {
        let sets = &self.claim.through;
        let read = free_layer(sets, layer, pin);
        let driven = free_layer(sets, read, PinRef::Net(net));
        if self.layers.is_late(self.cycle, driven, net) {
            Some(Source { net, layer: driven })
        } else {
            None
        }
    }

    /// The source of what the first of these pins reads in a layer that reads what is late.
    fn first_source(&self, layer: usize, reader: Reader, ins: &Seq<usize>) -> Option<Source>
        requires late { IsLateCycle self.now }
        requires layer { layer ≤ length self.now.claim.now.through }
        requires ins { AllBelow self.now.design.now.nets ins.now }
        ensures { IfSome result (IsSourceAt self.now layer reader ins.now) }
    {
        for place in 0..ins.len() {
            let pin = reader.pin(place);
            if let Some(source) = self.source(layer, pin, ins.at(place)) {
                return Some(source);
            }
        }
        None
    }

    /// The source of what the end reads, where it is late.
    fn end_source(&self) -> Option<Source>
        requires late { IsLateCycle self.now }
        ensures { IfSome result (λ last. IsRest self.now last (last.net ∷ [])) }
    {
        let layer = self.claim.through.len();
        match self.claim.end {
            End::Reg(r) => self.first_source(layer, Reader::Reg(r), &self.design.regs.item(r).ins),
            End::Output(o) => self.source(layer, PinRef::OutPort(o), self.design.outputs.at(o)),
        }
    }

    /// The rest of a path from the first source to which gates lead back from the end.
    ///
    /// A gate reads the nets of earlier gates alone, so one pass over the gates from the last one on meets all on the path.
    pub fn longest_rest(&self, alloc: Global) -> Result<Option<Rest>, AllocError>
        requires late { IsLateCycle self.now }
        ensures { IfOk result (λ found. IfSome found (λ rest. IsRest self.now rest.source rest.nets.items)) }
    {
        let Some(mut source) = self.end_source() else {
            return Ok(None);
        };
        let mut nets = Vec::new(alloc);
        nets.push(source.net)?;
        for k in (0..self.design.gates.len()).rev() {
            let gate = self.design.gates.item(k);
            if gate.out == source.net {
                let Some(before) = self.first_source(source.layer, Reader::Gate(k), &gate.ins)
                else {
                    return Ok(None);
                };
                nets.push(before.net)?;
                source = before;
            }
        }
        Ok(Some(Rest { source, nets }))
    }
}
