//! What a script is mended by.
use linked_types::{Linked, PortName};
use run_options::{Forms, Judging};
use script_types::Script;
use sdc_settings::Settings;
use sdcv_base::{Seq, Setting};
use selected_types::Selected;
use verdict_types::Verdict;

/// A linked design with the input bits of its top, the clock's among them, its resets, how its netlist and a script are read, what
/// the script sets in it, and how claims are judged.
#[derive(Clone, Copy)]
pub struct Scene<'a> {
    pub linked: &'a Linked,
    pub inputs: &'a Seq<PortName>,
    pub resets: &'a Seq<Setting>,
    pub forms: &'a Forms,
    pub settings: &'a Settings,
    pub judging: Judging,
}

/// A script with what it selects, where hold sides are judged or not, and what is found out about each claim in a run whose greatest
/// depth is `depth`.
#[derive(Clone, Copy)]
pub struct Findings<'a> {
    pub script: &'a Script,
    pub hold: bool,
    pub selected: &'a Selected,
    pub verdicts: &'a [Verdict],
    pub depth: usize,
}
