//! What is written selects what was found. The law is the contract of a call that does nothing, for callers that cite it.
ghost use Rattle.linked_types.specs.Usable.{IsUsable};
ghost use Rattle.mcp_detect.specs.Options.{AreInRange};
ghost use Rattle.mcp_detect.specs.Detections.{AreDetected};
ghost use Rattle.found_pairs.specs.Laws.{SelectsFound};

use linked_types::Linked;
use mcp_detect::{DetectOptions, Detected};

/// The text of what was found in a design, with hold lines or without, read as a script of the same design, selects exactly the
/// pairs that are written, with the claims that were found, and these hold in every run; only want of memory can stop it.
pub fn found_is_selected(linked: &Linked, options: &DetectOptions, detected: &Detected, hold: bool)
    requires usable { IsUsable linked.now }
    requires range { AreInRange options.now }
    requires found { AreDetected linked.now options.now detected.now }
    ensures { SelectsFound linked.now options.now detected.now hold }
{}
