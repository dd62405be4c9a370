//! The places that functions mention, as they are written.
ghost use Rattle.std.specs.Prelude.{◌≡◌};
ghost use Rattle.net_model.specs.Mentions.{mentions, mentions_if_any, reads_own};

use crate::functions::{Func, Node};
use crate::netlist::Reg;

impl Func {
    /// Whether the function mentions a place, also where its value does not depend on it.
    pub fn mentions(&self, place: usize) -> bool
        ensures { result ≡ mentions place self.now }
    {
        match &self.node {
            Node::Zero => false,
            Node::One => false,
            Node::Pin(i) => *i == place,
            Node::Not(f) => f.mentions(place),
            Node::And(f, g) => f.mentions(place) || g.mentions(place),
            Node::Or(f, g) => f.mentions(place) || g.mentions(place),
            Node::Xor(f, g) => f.mentions(place) || g.mentions(place),
        }
    }
}

/// The same of a control, if there is one.
fn control_mentions(control: &Option<Func>, place: usize) -> bool
    ensures { result ≡ mentions_if_any place control.now }
{
    match control {
        None => false,
        Some(func) => func.mentions(place),
    }
}

impl Reg {
    /// Whether one of the register's functions mentions the register's own bit.
    pub fn reads_own(&self) -> bool
        ensures { result ≡ reads_own self.now }
    {
        let own = self.ins.len();
        self.next.mentions(own)
            || control_mentions(&self.clear, own)
            || control_mentions(&self.preset, own)
    }
}
