//! What is known once a cone has grown.
use crate::cones::Cone;
use crate::launches::Launch;
use crate::readers::Readers;

/// The start and the sets of a cone, the cone when it has grown, and the pins that read its nets.
#[derive(Clone, Copy)]
pub(crate) struct Reach<'a> {
    pub launch: &'a Launch<'a>,
    pub cone: &'a Cone,
    pub readers: &'a Readers,
}
