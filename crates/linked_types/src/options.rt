//! What is set from outside a netlist.
use sdcv_base::{Name, Seq, Setting};

/// The clock's bit of an input port, the inputs that keep a value, the resets with their active values, and for how many
/// cycles the resets are active.
///
/// A netlist that is read `wide`, where some of its cells may be cut out, may have more data inputs. With `cut_clocks` registers
/// and clock gates that are not on the clock are cut out too.
#[derive(Drop)]
pub struct LinkOptions {
    pub clock: Option<Name>,
    pub fixed: Seq<Setting>,
    pub resets: Seq<Setting>,
    pub reset_len: usize,
    pub wide: bool,
    pub cut_clocks: bool,
}
