//! The call that reads a netlist.
ghost use Rattle.std.specs.Prelude.{IfOk};
ghost use Rattle.texts.specs.Rules.{Gives};
ghost use Rattle.verilog_scope.specs.Fails.{Fails};
ghost use Rattle.verilog_net.specs.Sources.{source_of};
ghost use Rattle.netlist_types.specs.Lawful.{IsLawful};

use crate::hierarchies::Hierarchy;
use crate::modules::modules_of;
use netlist_types::Source;
use std::alloc::Global;
use verilog_scope::VerFault;
use verilog_syntax::read_modules;

/// The netlist that a text is.
///
/// A text without modules is read. It refuses a text that breaks the grammar or a rule of names (`Syntax`), a word that is
/// left out where an item begins (`Unsupported`), a `{` inside 256 others (`Deep`), a name that stands for two modules, ports,
/// nets, instances or pins of one instance (`TwiceName`), and two sides of different widths (`Width`, at the `.` of a
/// connection, at the first byte of a terminal, or at that of an assignment's target).
///
/// Where it is read wide, `inout` is a direction, as `input` is, and else a word that is left out; and a connection of an
/// instance whose reference is no module of the text may have any width: of w bits it is w connections of one bit, of the
/// pins `P[w-1]` to `P[0]`, the most significant first, and no two connections so made are of one pin.
#[tactic(auto, unfolding(crate::specs::Sources::source_of))]
pub fn read_verilog(alloc: Global, text: &[u8], wide: bool) -> Result<Source, VerFault>
    ensures value { Gives Fails (λ source. source) result (source_of wide text.now) }
    ensures lawful { IfOk result IsLawful }
{
    let decls = read_modules(alloc, text, wide)?;
    let hierarchy = Hierarchy::of(alloc, decls.as_slice(), wide)?;
    let modules = modules_of(alloc, &hierarchy, decls)?;
    Ok(Source { modules })
}
