//! A report by groups: the pairs of a bus in one line, for a reader and for a build server.
//!
//! Read `findings_of` and `specs/Groups.antt` first: which pairs are of one group, and what is told of the script before
//! the groups. `groups_text`, `csv_text` and `gate` tell that one list in three ways, and `gate_with` leaves out what is
//! accepted; `remarks_of` tells which lines of a list accept nothing; `difference_lines` says how a report differs from an older one (`specs/Differences.antt`). What a report is, is up
//! to the crate below.
#![tactic(auto)]

mod changes;
mod counts;
mod csv_texts;
mod differences;
mod findings;
mod gates;
mod groups;
mod head_texts;
mod keys;
mod marks;
mod note_rows;
mod notes;
mod open_gates;
mod remarks;
mod stars;
mod tellings;
mod told_notes;

pub use csv_texts::csv_text;
pub use differences::{difference_lines, differences_text};
pub use findings::{Finding, findings_of};
pub use gates::Gate;
pub use groups::Group;
pub use open_gates::gate_with;
pub use remarks::{LineRemark, line_remark_text, pairs_word, remarks_of};
pub use tellings::{gate, groups_text};
