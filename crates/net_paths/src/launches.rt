//! Where paths begin, and the through sets that they are to meet.
use net_model::{Design, PinSet, Start};
use sdcv_base::Seq;

/// A design, one of its starts, and the through sets that the paths from it are to meet in their order.
#[derive(Clone, Copy)]
pub(crate) struct Launch<'a> {
    pub design: &'a Design,
    pub start: &'a Start,
    pub sets: &'a Seq<PinSet>,
}
