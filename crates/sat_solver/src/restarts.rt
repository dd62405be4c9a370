//! When a search begins again at level 0 (Luby, Sinclair and Zuckerman, 1993).

/// How many conflicts a term of the sequence stands for.
const UNIT: u64 = 64;

/// The conflicts that are left before the next restart. The numbers of conflicts between restarts
/// are UNIT times 1, 1, 2, 1, 1, 2, 4, .., by Knuth's reluctant doubling (The Art of Computer
/// Programming, 7.2.2.2): `term` is the present one, and `turn` says when it falls back to 1.
#[derive(Drop)]
pub struct Restarts {
    turn: u64,
    term: u64,
    left: u64,
}

impl Restarts {
    /// Before the first conflict.
    pub fn new() -> Restarts {
        Restarts {
            turn: 1,
            term: 1,
            left: UNIT,
        }
    }

    /// Counts a conflict, and says whether the search begins again after it.
    pub fn is_due(&mut self) -> bool {
        self.left = self.left.saturating_sub(1);
        if self.left > 0 {
            return false;
        }
        if self.turn & self.turn.wrapping_neg() == self.term {
            self.turn = self.turn.wrapping_add(1);
            self.term = 1;
        } else {
            self.term = self.term.saturating_mul(2);
        }
        self.left = self.term.saturating_mul(UNIT);
        true
    }
}
