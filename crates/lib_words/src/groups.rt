//! The cells of a library as their groups stand in the text.

use crate::kinds::{AttributeKind, PartKind};
use sdcv_base::{Name, Seq};

/// The value of a simple attribute: the bytes between the quotes, or an unquoted run without the white space at its ends.
#[derive(Drop)]
pub struct Value {
    pub text: Name,
    /// Where the first of these bytes stands in the whole text, from 0. In a quoted value it follows the quote.
    pub offset: usize,
    pub is_quoted: bool,
}

#[derive(Drop)]
pub struct Attribute {
    pub kind: AttributeKind,
    pub value: Value,
}

/// A group that stands directly in a cell: its arguments, and its direct simple attributes that count, as in the text.
#[derive(Drop)]
pub struct Part {
    pub kind: PartKind,
    pub names: Seq<Name>,
    pub attributes: Seq<Attribute>,
}

/// A `cell` group: its only argument, and what stands directly in it and counts, as in the text.
pub struct CellGroup {
    pub name: Name,
    pub attributes: Seq<Attribute>,
    pub parts: Seq<Part>,
}

impl Drop for CellGroup {
    fn drop(self) {
        let CellGroup {
            name: _name,
            attributes: _attributes,
            parts: _parts,
        } = self;
    }
}
