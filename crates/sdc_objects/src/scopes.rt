//! Where the objects of a script are looked up.
use crate::tables::Tables;
use linked_types::Linked;
use script_types::Script;

/// A linked design, tables of its names, and the script, whose clocks have names too; and whether lists mean what a timing
/// analyser takes them for, as for a sign-off.
#[derive(Clone, Copy)]
pub struct Scope<'a> {
    pub linked: &'a Linked,
    pub script: &'a Script,
    pub tables: &'a Tables,
    pub strict: bool,
}
