//! Ends that paths are to lead to, and where each stands among them.
ghost use Rattle.std.specs.Prelude.{◌≡◌, All, IfOk};
ghost use Rattle.net_model.specs.Fits.{IsEndIn};
ghost use Rattle.net_paths.specs.Aims as spec;

use net_model::{Design, End, PinRef};
use sdcv_base::Seq;
use std::alloc::{AllocError, Global};

/// Ends to which paths are to lead, and where each stands among them. It is made once for a list of ends, and lent to the
/// searches from all starts.
///
/// What always holds (`AreAimsOf`):
/// - fit: the ends are those of the design.
/// - places: each end has its own place in the list; where an end stands twice there are no places.
#[derive(Drop)]
pub struct Aims<'a> {
    pub ends: &'a Seq<End>,
    pub(crate) places: Option<Places>,
}

impl<'a> Aims<'a> {
    /// These ends of a design.
    pub fn of(alloc: Global, design: &Design, ends: &'a Seq<End>) -> Result<Aims<'a>, AllocError>
        requires ends { All (IsEndIn design.now) ends.now }
        ensures ends { IfOk result (λ aims. aims.ends.now ≡ ends.now) }
        ensures aims { IfOk result (spec.AreAimsOf design.now) }
    {
        let places = Places::of(alloc, design, ends)?;
        Ok(Aims { ends, places })
    }
}

/// The place of each register and each output in a list of ends.
#[derive(Drop)]
pub(crate) struct Places {
    pub regs: Seq<Option<usize>>,
    pub outputs: Seq<Option<usize>>,
}

impl Places {
    /// The places in these ends, unless an end stands twice.
    fn of(alloc: Global, design: &Design, ends: &Seq<End>) -> Result<Option<Places>, AllocError>
        requires ends { All (IsEndIn design.now) ends.now }
        ensures { IfOk result (spec.AreAnyPlaces design.now ends.now) }
    {
        let mut places = Places::none(alloc, design)?;
        for k in 0..ends.len() {
            let end = ends.at(k);
            if places.of_end(end).is_some() {
                return Ok(None);
            }
            places.put(end, k);
        }
        Ok(Some(places))
    }

    // No end has a place.
    fn none(alloc: Global, design: &Design) -> Result<Places, AllocError>
        ensures { IfOk result (spec.AreNoPlaces design.now) }
    {
        Ok(Places {
            regs: Seq::filled(alloc, None, design.regs.len())?,
            outputs: Seq::filled(alloc, None, design.outputs.len())?,
        })
    }

    // The place of an end, if it has one.
    fn of_end(&self, end: End) -> Option<usize>
        requires { spec.HasRoom self.now end }
        ensures { result ≡ spec.place_of self.now end }
    {
        match end {
            End::Reg(reg) => self.regs.at(reg),
            End::Output(output) => self.outputs.at(output),
        }
    }

    fn put(&mut self, end: End, place: usize)
        requires { spec.HasRoom self.old end }
        ensures { spec.IsPut end place self.old self.new }
    {
        match end {
            End::Reg(reg) => self.regs.put(reg, Some(place)),
            End::Output(output) => self.outputs.put(output, Some(place)),
        }
    }

    /// The place of the end that has this pin, if it has one.
    pub fn of_pin(&self, pin: PinRef) -> Option<usize>
        requires { spec.HasRoomAt self.now pin }
        ensures { result ≡ spec.pin_place self.now pin }
    {
        match pin {
            PinRef::RegIn(reg, _) => self.of_end(End::Reg(reg)),
            PinRef::OutPort(output) => self.of_end(End::Output(output)),
            PinRef::Net(_) | PinRef::GateIn(_, _) => None,
        }
    }
}
