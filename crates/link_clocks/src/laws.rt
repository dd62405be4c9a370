//! The laws of the netlist that is judged. They are the contracts of calls that do nothing, for callers that cite them.
ghost use Rattle.std.specs.Prelude.{◌≡◌, Bool, false};
ghost use Rattle.link_defs.specs.Judged.{FlatNetlist, IsJudged};

/// What is judged of a netlist is one netlist, whatever row marks the nets of the clock.
pub fn judged_is_one()
    ensures { (one_clock : Bool) (n j k : FlatNetlist) → IsJudged one_clock n j → IsJudged one_clock n k → j ≡ k }
{}

/// Where no clock of several is judged, the whole netlist is.
pub fn judged_alone()
    ensures whole { (n j : FlatNetlist) → IsJudged false n j → j ≡ n }
    ensures own { (n : FlatNetlist) → IsJudged false n n }
{}
