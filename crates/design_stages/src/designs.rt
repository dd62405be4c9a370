//! What is found of texts that were read.
use cell_types::Library;
use net_link::{Linked, PortName};
use netlist_types::Source;
use run_options::Forms;
use script_types::Script;
use sdc_settings::Settings;
use sdcv_base::Seq;
use selected_types::{Notices, Selected};

/// Texts that were read: a netlist, its cells and its constraints, and how these were read.
#[derive(Drop)]
pub struct ReadTexts {
    pub source: Source,
    pub library: Library,
    pub script: Script,
    pub forms: Forms,
}

/// The input bits of the top module, and what the constraints set.
#[derive(Drop)]
pub struct Settled {
    pub inputs: Seq<PortName>,
    pub settings: Settings,
}

/// A design with its names, the pairs that are selected in it, and what is told of the netlist and the constraints beside them.
/// `free` counts the nets that are free behind what is cut out, where cells may be cut out.
#[derive(Drop)]
pub struct Designed {
    pub linked: Linked,
    pub selected: Selected,
    pub notices: Notices,
    pub free: Option<u64>,
}
