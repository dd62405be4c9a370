//! The clock port and the fixed inputs that an SDC script gives a design (SDC 2.1, `create_clock` and
//! `set_case_analysis`).
//!
//! Read `scripts.rt`: first the clock, where one is asked for that of its name, then whether one is generated, then what each
//! case analysis gives, then each fixed input once. What an object of a script names among the input bits stands in
//! `specs/Inputs.antt`, which bit the source of a clock is and how the clock is called in `specs/Sources.antt`, the settings in
//! `specs/Settings.antt`, and the cause of each refusal in `specs/Causes.antt`.
#![tactic(auto)]

mod cases;
mod clocks;
mod fixed;
mod generated;
mod inputs;
mod scripts;
mod sources;
mod values;

pub use inputs::{names_bit, object_text};
pub use scripts::settings;
pub use sources::{clock_name, source_bit};
pub use values::Settings;
