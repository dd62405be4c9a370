//! Whether a violation stands whatever the free inputs do: the run of a stimulus in three values, in which the bits of free
//! inputs are unknown (Eichelberger's third value).
//!
//! Free inputs are driven by what is cut out of a design, and sinks are read by it. Begin with `specs/Firm.antt`: `IsFirm` is what
//! is wanted, and `IsShownFirm` what three values show of it. `shows_firm` decides the latter, and `shown_firm` is the law that
//! what is shown firm is firm.
#![tactic(auto)]

mod bads;
mod captures;
mod cycles;
mod firm;
mod free_bits;
mod known_inputs;
mod late_starts;
mod laws;
mod layers;
mod runs;
mod settling;

pub use cycles::Cycle3;
pub use firm::shows_firm;
pub use free_bits::FreeBits;
pub use laws::shown_firm;
