//! What texts stand for is one. The laws are the contracts of calls that do nothing.
ghost use Rattle.design_stages.specs.Texts.{Netlist, Cells, Constraints};
ghost use Rattle.one_design.specs.Designs.{FindsOne, OneDesignOf};

use run_options::{Forms, Judging, Reset};

/// A text is at most one netlist and one script of a form and one library, and where it is one, it is not refused as such.
pub fn one_text(text: &[u8], forms: &Forms)
    ensures netlist { FindsOne (Netlist forms.now.netlist text.now) }
    ensures cells { FindsOne (Cells text.now) }
    ensures constraints { FindsOne (Constraints forms.now.script text.now) }
{}

/// Two runs over the same three texts, read in the same forms, with the same reset and manner of judging find the same design with the same pairs;
/// where one of them finds a design, none is refused a text.
pub fn one_of_texts(
    netlist: &[u8],
    cells: &[u8],
    constraints: &[u8],
    forms: &Forms,
    reset: &Reset,
    judging: Judging,
)
    ensures { OneDesignOf netlist.now cells.now constraints.now forms.now reset.now judging }
{}
