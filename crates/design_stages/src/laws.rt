//! What is found of a netlist that is read by the rules of each run. The law is the contract of a call that does nothing.
ghost use Rattle.std.specs.Prelude.{◌≡◌, ◌↔◌, List, None, Ok};
ghost use Rattle.sdcv_base.specs.declared.settings.Setting.{Setting};
ghost use Rattle.linked_types.specs.declared.names.Linked.{Linked};
ghost use Rattle.linked_types.specs.Narrow.{IsWhole};
ghost use Rattle.run_options.specs.declared.netlists.NetlistForm.TheVariants.{Narrow};
ghost use Rattle.script_notices.specs.Notices.{notices_of};
ghost use Rattle.design_stages.specs.declared.designs.Designed.{Designed};
ghost use Rattle.design_stages.specs.declared.designs.Settled.{Settled};
ghost use Rattle.design_stages.specs.Designs.{Settles, SettlesIn, LinksTo, LinksIn, Designs, DesignsIn, top_name, whole};
ghost use Rattle.design_stages.specs.Stages.{Found};

use crate::designs::ReadTexts;
use run_options::{Judging, Reset};

/// Of a netlist that is read by the rules of each run nothing is cut out: what is found of it is found of the whole netlist, and
/// nothing is told of it.
pub fn nothing_is_cut(texts: &ReadTexts, reset: &Reset, judging: Judging)
    requires { texts.now.forms.netlist ≡ Narrow }
    ensures settles { (resets : List Setting) (found : Found Settled) → Settles texts.now resets found ↔ SettlesIn texts.now texts.now.source resets found }
    ensures links { (found : Found Linked) → LinksTo texts.now reset.now found ↔ LinksIn texts.now (whole texts.now.source) reset.now found }
    ensures designs { (found : Found Designed) → Designs texts.now reset.now judging found
        ↔ DesignsIn texts.now (whole texts.now.source) reset.now judging found }
    ensures told { (d : Designed) → Designs texts.now reset.now judging (Ok d) → IsWhole d.linked.names × (d.free ≡ None)
        × (d.notices ≡ notices_of texts.now.forms.script judging (top_name texts.now.source) texts.now.script d.selected) }
{}
