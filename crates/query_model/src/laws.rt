//! A law of prime cubes. It is the contract of a call that does nothing, for callers that cite it.
ghost use Rattle.std.specs.Prelude.{ℕ, Bool, ◌↔◌};
ghost use Rattle.query_model.specs.Depends.{DependsOn, IsFixedBySome};

/// A prime cube fixes a place exactly where the function depends on it: where in some row its value changes with that place's
/// bit alone. So the keys of the other places stand in no clause of the function's prime cubes.
pub fn prime_places()
    ensures { (cell : (ℕ → Bool) → Bool) (places i : ℕ) → (DependsOn cell places i ↔ IsFixedBySome cell places i) }
{}
