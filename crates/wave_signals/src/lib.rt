//! Named bits as signals: neighbouring bits whose names differ in their index alone, as a waveform shows them.
//!
//! Read `specs/Signals.antt` first: what bits a signal has, each by its full name. `grouped` keeps the order of the bits; `ordered`
//! brings those of a scope together. Both lose no bit and add none. Whose bits they are is left to the crate above.
#![tactic(auto)]

mod bits;
mod groups;
mod indices;
mod labels;
mod orders;
mod signals;
mod splits;

pub use bits::{BitKind, NamedBit};
pub use groups::{grouped, ordered};
pub use labels::{digit_at, push_digits, push_label, push_range};
pub use signals::{Signal, Span, Stem};
