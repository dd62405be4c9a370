//! What case analyses set in a linked design (SDC 2.1, `set_case_analysis`): values of data inputs, which they fix, and of pins
//! and nets inside the design, which they assume.
//!
//! Read `case_objects` and `specs/Spots.antt` (what an object names), `specs/Values.antt` (the values, each with its place), `specs/Subjects.antt` (which
//! values must agree) and `specs/CaseObjects.antt` (what comes of them) first; `specs/Causes.antt` has the cause of each refusal. What an
//! assumption does to the design is left to `assume`.
#![tactic(auto)]

mod calls;
mod found;
mod given;
mod inputs;
mod loads;
mod places;
mod spots;
mod subjects;
mod values;

pub use calls::case_objects;
pub use values::{CaseObjects, Told};
