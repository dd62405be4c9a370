//! What flattening makes of items.
use link_defs::Part;
use sdcv_base::{Name, Seq};

/// An instance of a module: what the full names of its nets begin with, the place of its module, the flat net of each of its
/// nets, and in how many module instances what is in it stands, with itself.
#[derive(Drop)]
pub struct Instance {
    pub prefix: Name,
    pub body: usize,
    pub nets: Seq<usize>,
    pub depth: usize,
}

/// A leaf instance or a named primitive by its full name, with the place of its cell in the library, if it has one, and the
/// place of its part.
#[derive(Drop)]
pub struct LeafPlace {
    pub name: Name,
    pub cell: Option<usize>,
    pub part: usize,
}

/// How many flat nets there are so far, and the parts and leaves, in the order in which they are met.
#[derive(Drop)]
pub struct Made {
    pub count: usize,
    pub parts: Seq<Part>,
    pub leaves: Seq<LeafPlace>,
}
