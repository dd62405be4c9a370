//! A branch below the clock.
ghost use Rattle.std.specs.Prelude.{◌≡◌};
ghost use Rattle.net_model.specs.Form.{IsOver};
ghost use Rattle.link_defs.specs.Parts.{inverts};
ghost use Rattle.link_design.specs.Branches.{root_branch, past_buffer, past_gate};

use net_model::{Args, Func, Value};

/// What a net below the clock has: whether the clock comes to it after an odd number of inversions, the clock gate above
/// it, if there is one, by the net that this drives, and whether it is lost: a clock gate carries on the clock as it comes,
/// and one of those above the net gets its complement. The nets that are not lost are the clock tree.
#[derive(Clone, Copy)]
pub(crate) struct Branch {
    pub(crate) odd: bool,
    pub(crate) above: Option<usize>,
    pub(crate) lost: bool,
}

impl Branch {
    /// The branch of the clock's own nets.
    pub(crate) fn root() -> Branch
        ensures { result ≡ root_branch }
    {
        Branch {
            odd: false,
            above: None,
            lost: false,
        }
    }

    /// The branch after a buffer or an inverter.
    pub(crate) fn past_buffer(self, func: &Func) -> Branch
        requires { IsOver 7 func.now }
        ensures { result ≡ past_buffer self func.now }
    {
        Branch {
            odd: self.odd ^ inverts(func),
            above: self.above,
            lost: self.lost,
        }
    }

    /// The branch after a clock gate, which is told by the net that it drives.
    pub(crate) fn past_gate(self, out: usize) -> Branch
        ensures { result ≡ past_gate self out }
    {
        Branch {
            odd: self.odd,
            above: Some(out),
            lost: self.lost || self.odd,
        }
    }
}

/// Whether a function of one place gives the complement, if it depends on the place.
fn inverts(func: &Func) -> bool
    requires { IsOver 7 func.now }
    ensures { result ≡ inverts func.now }
{
    bool::apply(func, &Args::of(false))
}
