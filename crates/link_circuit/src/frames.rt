//! What is left while a source is flattened.

/// An instance by its place among those met so far, and its next item.
#[derive(Clone, Copy)]
pub(crate) struct Frame {
    pub(crate) scope: usize,
    pub(crate) next: usize,
}
