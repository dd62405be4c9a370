//! Which inputs are free, and which outputs are sinks.
ghost use Rattle.std.specs.Prelude.{◌≡◌, ◌↔◌, IsTrue};
ghost use Rattle.firm_runs.specs.Frees as frees;

use net_model::{Design, End};

/// The inputs that are driven by what is cut out of a design, and the outputs that are read by it alone.
#[derive(Debug, Clone, Copy, PartialEq, Eq)]
pub struct FreeBits {
    /// The number of the first free input.
    pub first: usize,
    /// How many inputs are free: the first one, and those after it.
    pub count: usize,
    /// The number of the first sink. All outputs from it on are sinks.
    pub sinks_from: usize,
}

impl FreeBits {
    /// Whether an input is free.
    pub fn is_free(&self, input: usize) -> bool
        ensures { result ≡ frees.is_free self.now input }
    {
        input >= self.first && input - self.first < self.count
    }

    /// Whether an end is a sink.
    pub fn is_sink(&self, end: &End) -> bool
        ensures { IsTrue result ↔ frees.IsSink self.now end.now }
    {
        match end {
            End::Reg(_) => false,
            End::Output(output) => *output >= self.sinks_from,
        }
    }

    /// Whether the design has a free input or a sink.
    pub fn leaves_open(&self, design: &Design) -> bool
        ensures { IsTrue result ↔ frees.LeavesOpen design.now self.now }
    {
        self.count > 0 || self.sinks_from < design.outputs.len()
    }
}
