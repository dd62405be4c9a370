//! What the words of an SDC command say (SDC 2.1): texts and lists of objects, and the variables that keep them.
#![tactic(auto)]

mod collections;
mod command_words;
mod gets;
mod lists;
mod loans;
mod nested;
mod nested_kinds;
mod values;
mod variables;
mod word_texts;

pub use collections::{bracket_len, collection};
pub use command_words::{command_name, said_words, words_after};
pub use lists::objects_of;
pub use loans::Loan;
pub use nested_kinds::{Nesting, is_option};
pub use script_types::{Class, Object, Query, SdcFault, copy_objects};
pub use values::{Said, Value};
pub use variables::Variables;
pub use word_texts::said_text;
