//! An indexed binary heap of variables.
ghost use Rattle.std.specs.Prelude.{◌≡◌, ◌+◌, ◌<◌, ◌≤◌, ◌^◌, ◌||◌, ◌==◌, ℕ, [], ◌∷◌, ◌++◌, length, IfSome, IfOk, MatchOption, true, false};
ghost use Rattle.proof_log.specs.Clauses.{is_set};
ghost use Rattle.decision_heap.specs.Heaps.{IsSame, IsTaken, IsFull};

use std::alloc::{AllocError, Global};
use std::marker::Model;

/// From this rise on, all scores are made smaller together.
const MOST_RISE: u64 = 1 << 50;

/// Variables from 1 to `vars`, each once or not at all, those of high score first and of equal scores
/// the lower, with a score for each variable, waiting or not.
///
/// What always holds (`IsHeap`):
/// - roomy: there is room for each variable, so that none takes memory to come in.
/// - long, scored: the tables of places and of scores have an entry for each variable.
/// - some, within: who waits is a variable.
/// - placed: the table of places has the place of each variable that waits.
///
/// That a variable's score is not above its parent's holds after each call, but is not known here.
#[derive(Drop)]
pub struct Heap {
    array: Vec<u32>,
    places: Vec<usize>,
    scores: Vec<u64>,
    rise: u64,
}

impl Model for Heap {
    ghost use Rattle.std.specs.Prelude.{length, vec_capacity, ◌-◌};
    ghost use Rattle.decision_heap.specs.Heaps.{Waiting, IsHeap};

    ghost Value = { Waiting };

    ghost view = { λ h. record { vars = length h.places.items - 1; inside = h.array.items } };

    ghost invariant = { λ h. IsHeap (length h.places.items - 1) (vec_capacity h.array) h.array.items h.places.items h.scores.items };
}

impl Heap {
    /// All variables from 1 to `vars` wait, each with the score 0.
    pub fn new(alloc: Global, vars: u32) -> Result<Heap, AllocError>
        requires { vars < 2 ^ 31 }
        ensures { IfOk result (λ h. IsFull vars h) }
    {
        let mut heap = Heap::empty(alloc, vars)?;
        for var in 1..vars + 1 {
            heap.insert(var);
        }
        Ok(heap)
    }

    fn empty(alloc: Global, vars: u32) -> Result<Heap, AllocError>
        requires { vars < 2 ^ 31 }
        ensures { IfOk result (λ h. h ≡ record { vars = vars; inside = [] }) }
    {
        let array = Vec::with_capacity(alloc, vars as usize + 1)?;
        let places = vec![in alloc; 0usize; vars as usize + 1]?;
        let scores = vec![in alloc; 0u64; vars as usize + 1]?;
        Ok(Heap {
            array,
            places,
            scores,
            rise: 1,
        })
    }

    /// Whether the variable waits.
    pub fn contains(&self, var: u32) -> bool
        requires { var ≤ self.now.vars }
        ensures { result ≡ is_set self.now.inside var }
    {
        let place = self.places[var as usize];
        place < self.array.len() && self.array[place] == var
    }

    /// Lets the variable wait, if it doesn't yet. It takes no memory.
    pub fn insert(&mut self, var: u32)
        requires some { 1 ≤ var }
        requires within { var ≤ self.old.vars }
        ensures vars { self.new.vars ≡ self.old.vars }
        ensures inside { (v : ℕ) → is_set self.new.inside v ≡ (is_set self.old.inside v || var == v) }
    {
        if !self.contains(var) {
            let place = self.array.len();
            self.push_last(var);
            self.up(place);
        }
    }

    /// Takes out the variable of the highest score, or is `None` where none waits.
    pub fn pop(&mut self) -> Option<u32>
        ensures { MatchOption result
            ((self.old.inside ≡ []) × (self.new ≡ self.old))
            (λ var. IsTaken self.old self.new var) }
    {
        if self.array.is_empty() {
            return None;
        }
        let last = self.array.len() - 1;
        self.exchange(0, last);
        let var = self.take_last();
        self.down(0);
        Some(var)
    }

    /// Raises the variable's score by the present rise.
    pub fn raise(&mut self, var: u32)
        requires { var ≤ self.old.vars }
        ensures { IsSame self.old self.new }
    {
        self.add_score(var);
        let place = self.places[var as usize];
        if self.contains(var) && place < self.array.len() {
            self.up(place);
        }
    }

    /// Lets each later rise count more than those before.
    pub fn age(&mut self)
        ensures { self.new ≡ self.old }
    {
        self.rise = self.rise.saturating_add(self.rise / 16 + 1);
        if self.rise > MOST_RISE {
            self.shrink();
        }
    }

    fn shrink(&mut self)
        ensures { self.new ≡ self.old }
    {
        self.rise >>= 40;
        for score in self.scores.iter_mut() {
            *score >>= 40;
        }
    }

    fn add_score(&mut self, var: u32)
        requires { var ≤ self.old.vars }
        ensures { self.new ≡ self.old }
    {
        let score = self.scores[var as usize];
        self.scores[var as usize] = score.saturating_add(self.rise);
    }

    fn push_last(&mut self, var: u32)
        requires some { 1 ≤ var }
        requires within { var ≤ self.old.vars }
        requires out { is_set self.old.inside var ≡ false }
        ensures vars { self.new.vars ≡ self.old.vars }
        ensures inside { self.new.inside ≡ self.old.inside ++ var ∷ [] }
    {
        self.places[var as usize] = self.array.len();
        self.array.push_reserved(var);
    }

    fn take_last(&mut self) -> u32
        requires { 0 < length self.old.inside }
        ensures vars { self.new.vars ≡ self.old.vars }
        ensures some { 1 ≤ result }
        ensures within { result ≤ self.old.vars }
        ensures last { self.old.inside ≡ self.new.inside ++ result ∷ [] }
        ensures out { is_set self.new.inside result ≡ false }
    {
        let last = self.array.len() - 1;
        let var = self.array[last];
        self.array.truncate(last);
        var
    }

    /// Moves the variable at that place towards the front until none of a lower score is above it.
    fn up(&mut self, from: usize)
        requires { from < length self.old.inside }
        ensures { IsSame self.old self.new }
    {
        let mut at = from;
        while at > 0 {
            let parent = (at - 1) / 2;
            if !self.is_before(at, parent) {
                return;
            }
            self.exchange(at, parent);
            at = parent;
        }
    }

    /// Moves the variable at that place towards the end until none of a higher score is below it.
    fn down(&mut self, from: usize)
        ensures { IsSame self.old self.new }
    {
        let mut at = from;
        while let Some(child) = self.child_before(at) {
            self.exchange(at, child);
            at = child;
        }
    }

    /// The child that is to stand before its parent, the better one of two.
    fn child_before(&self, at: usize) -> Option<usize>
        ensures { IfSome result (λ child. (at < child) × (child < length self.now.inside)) }
    {
        if at >= self.array.len() / 2 {
            return None;
        }
        let left = 2 * at + 1;
        if left >= self.array.len() {
            return None;
        }
        let mut child = left;
        if left + 1 < self.array.len() && self.is_before(left + 1, left) {
            child = left + 1;
        }
        if self.is_before(child, at) {
            Some(child)
        } else {
            None
        }
    }

    /// Whether the variable at the one place has the higher score, or the lower number where the
    /// scores are equal.
    fn is_before(&self, i: usize, j: usize) -> bool
        requires i { i < length self.now.inside }
        requires j { j < length self.now.inside }
    {
        let (a, b) = (self.array[i], self.array[j]);
        let (score, other) = (self.scores[a as usize], self.scores[b as usize]);
        score > other || score == other && a < b
    }

    /// Exchanges the variables at two places.
    fn exchange(&mut self, i: usize, j: usize)
        requires i { i < length self.old.inside }
        requires j { j < length self.old.inside }
        ensures { IsSame self.old self.new }
    {
        let a = self.array[i];
        let b = self.array[j];
        self.array[i] = b;
        self.array[j] = a;
        self.places[b as usize] = i;
        self.places[a as usize] = j;
    }
}
