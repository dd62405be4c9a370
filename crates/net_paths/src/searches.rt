//! Searches for the ends of paths, start by start.
ghost use Rattle.std.specs.Prelude.{IfOk};
ghost use Rattle.net_model.specs.Netlist.{IsSound};
ghost use Rattle.net_model.specs.Fits.{IsStartIn};
ghost use Rattle.net_model.specs.Paths.{HasPath};
ghost use Rattle.net_paths.specs.Those.{AreThose};
ghost use Rattle.net_paths.specs.Aims.{AreAimsOf};
ghost use Rattle.net_paths.specs.Searches.{IsSearchOf};

use crate::aims::Aims;
use crate::cones::Cone;
use crate::ends::ends_of;
use crate::launches::Launch;
use crate::reaches::Reach;
use crate::readers::Readers;
use net_model::{Design, End, PinSet, Start};
use sdcv_base::Seq;
use std::alloc::{AllocError, Global};

/// The readers of a design's nets, and room for the cone of one start. It is made once for a design.
///
/// What always holds (`IsSearchOf`), after a refused call too:
/// - readers: the list of each net has exactly the pins that read it.
/// - noted: each net that has a level is noted, so that the levels of one start can be taken away before the next.
#[derive(Drop)]
pub struct Search {
    readers: Readers,
    cone: Cone,
}

impl Search {
    /// A search over this design.
    pub fn new(alloc: Global, design: &Design) -> Result<Search, AllocError>
        requires sound { IsSound design.now }
        ensures { IfOk result (IsSearchOf design.now) }
    {
        let readers = Readers::of(alloc, design)?;
        let cone = Cone::new(alloc, design.nets)?;
        Ok(Search { readers, cone })
    }

    /// Those of these ends, in their order, to which a path leads from the start and meets a pin of each set, in the
    /// order of the sets (SDC 2.1, `-through`). It takes time for the nets of these paths, their readers, and the nets of the
    /// start before, whatever the size of the design and the number of ends; where an end stands twice, for all ends too.
    pub fn ends_from(
        &mut self,
        alloc: Global,
        design: &Design,
        start: &Start,
        sets: &Seq<PinSet>,
        aims: &Aims,
    ) -> Result<Seq<End>, AllocError>
        requires sound { IsSound design.now }
        requires start { IsStartIn design.now start.now }
        requires aims { AreAimsOf design.now aims.now }
        requires search { IsSearchOf design.now self.old }
        ensures found { IfOk result (AreThose (λ end. HasPath design.now start.now end sets.now) aims.now.ends.now) }
        ensures search { IsSearchOf design.now self.new }
    {
        let launch = Launch {
            design,
            start,
            sets,
        };
        self.cone.clear(design.nets);
        self.cone.grow(&launch, &self.readers)?;
        let reach = Reach {
            launch: &launch,
            cone: &self.cone,
            readers: &self.readers,
        };
        ends_of(alloc, &reach, aims)
    }
}
