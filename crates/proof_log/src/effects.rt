//! What a clause does under the literals that are set.
ghost use Rattle.std.specs.Prelude.{◌≡◌, List, ℕ};
ghost use Rattle.proof_log.specs.Clauses.{is_set};
ghost use Rattle.proof_log.specs.Effects.{effect_of};

use crate::literals::Lit;

/// What a clause does under the literals that are set.
#[derive(Clone, Copy, Debug, PartialEq, Eq)]
pub enum Effect {
    /// The complement of each literal is set.
    Falsified,
    /// That of each literal but this one is set, and this one is unset.
    Sets(Lit),
    /// Neither of the two.
    Neither,
}

/// Literals that are set.
pub trait LitSet {
    ghost lits: { Self → List ℕ };

    fn is_set(&self, l: Lit) -> bool
        ensures { result ≡ is_set (lits self.now) l };

    final fn effect(&self, clause: &[Lit]) -> Effect
        ensures { result ≡ effect_of (lits self.now) clause.now }
    {
        let mut open: Option<Lit> = None;
        for l in clause {
            if !self.is_set(l.negated()) {
                if open.is_some() {
                    return Effect::Neither;
                }
                open = Some(*l);
            }
        }
        match open {
            None => Effect::Falsified,
            Some(u) => if self.is_set(u) {
                Effect::Neither
            } else {
                Effect::Sets(u)
            },
        }
    }
}
