//! Where exceptions are looked up.
use crate::points::Points;
use run_options::Judging;
use sdc_objects::Scope;
use sdcv_base::Seq;

/// A script and its linked design with tables of its names, the design's starts and ends, the places of the cells of its
/// registers, and how claims are judged.
#[derive(Clone, Copy)]
pub(crate) struct Task<'a> {
    pub scope: Scope<'a>,
    pub points: &'a Points,
    pub cells: &'a Seq<Option<usize>>,
    pub judging: Judging,
}
