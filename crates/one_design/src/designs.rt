//! Texts have one design with its pairs. The laws are the contracts of calls that do nothing.
ghost use Rattle.std.specs.Prelude.{Ok, Err};
ghost use Rattle.linked_types.specs.declared.faults.LinkFault.TheVariants.{Memory};
ghost use Rattle.design_stages.specs.Designs.{HasInputs, LinksTo};
ghost use Rattle.one_design.specs.Answers.{IsOneAnswer};
ghost use Rattle.one_design.specs.Designs.{FindsOne, OneDesign};

use design_stages::ReadTexts;
use netlist_types::Source;
use run_options::{Judging, Reset};

/// A netlist has at most one list of input bits of its top module, and no fault of its top module beside it.
pub fn one_inputs(source: &Source)
    ensures { IsOneAnswer (λ ports. HasInputs source.now (Ok ports)) (λ fault. HasInputs source.now (Err fault)) Memory }
{}

/// Texts that were read give at most one design, and no refusal beside it; so it is with the design and its pairs.
pub fn one_designed(texts: &ReadTexts, reset: &Reset, judging: Judging)
    ensures linked { FindsOne (LinksTo texts.now reset.now) }
    ensures designed { OneDesign texts.now reset.now judging }
{}
