//! What a script sets.
use sdcv_base::{Name, Seq, Setting};

/// The name of the clock's port bit, if a clock has a source, and the inputs that case analyses fix, each once, by name.
#[derive(Drop)]
pub struct Settings {
    pub clock: Option<Name>,
    pub fixed: Seq<Setting>,
}
