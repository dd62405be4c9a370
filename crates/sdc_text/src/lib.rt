//! The constraints that an SDC text is (SDC 2.1): its commands with their lines.
//!
//! `read_sdc` is the call to read first. It goes through the commands of the text (`sdc_words`), takes the values of their
//! words (`sdc_values`), and says of each command what it is: a clock, a case analysis, an exception that claims, is set
//! aside or is about the hold check alone, or one that changes no exception. A script may be read wide (`ScriptForm`): then some
//! more commands and options have a reading, delays are kept, and commands that an analyser obeys are told by their names. Which
//! ports and cells the patterns match is left to the crates above.
#![tactic(auto)]

mod cases;
mod clocks;
mod delays;
mod exceptions;
mod forms;
mod gathers;
mod heads;
mod kinds;
mod numbers;
mod options;
mod places;
mod progresses;
mod readers;

pub use readers::read_sdc;
pub use run_options::ScriptForm;
pub use script_types::{
    Checks, Class, Command, Exception, Held, Object, Query, Script, SdcFault, What,
};
pub use sdcv_base::{Edge, Kind};
