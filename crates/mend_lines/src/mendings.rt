//! What a script is mended by.
use mend_groups::Part;
use script_types::Script;
use selected_types::Selected;
use verdict_types::Verdict;

/// A script with what it selects, where hold sides are judged or not, what is found out about its pairs in a run whose greatest depth
/// is `depth`, and what becomes of the pairs of each of its exceptions.
#[derive(Clone, Copy)]
pub struct Mending<'a> {
    pub script: &'a Script,
    pub hold: bool,
    pub selected: &'a Selected,
    pub verdicts: &'a [Verdict],
    pub depth: usize,
    pub parts: &'a [Part],
}
