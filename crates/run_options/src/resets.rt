//! How runs begin.
use sdcv_base::{Seq, Setting};

/// The values of the reset ports, and for how many cycles they have them first.
#[derive(Drop)]
pub struct Reset {
    pub ports: Seq<Setting>,
    pub len: usize,
}
