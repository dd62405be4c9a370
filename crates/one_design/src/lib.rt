//! Texts have one design: what is found of them follows from the texts and the options alone.
//!
//! Read `specs/Designs.antt` first: texts that give a design with its pairs give no other one, and are not refused. `readings.rt`
//! says it of the texts themselves and `designs.rt` of what was read. `specs/Answers` has what is said of each stage: `settings.rt`
//! of the clock and the fixed inputs, `selections.rt` of the pairs, `links.rt` of the design. The laws stand apart from the
//! program's calls, which do not need them.
#![tactic(auto)]

mod designs;
mod links;
mod readings;
mod selections;
mod settings;

pub use designs::{one_designed, one_inputs};
pub use links::one_linked;
pub use readings::{one_of_texts, one_text};
pub use selections::one_selection;
pub use settings::one_settings;
