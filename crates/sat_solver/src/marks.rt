//! Marks on variables, all taken off at once.
ghost use Rattle.std.specs.Prelude.{◌≡◌, ◌+◌, ◌<◌, ◌^◌, ◌||◌, ◌&&◌, ◌==◌, ℕ, not, length, slice_index, true, false, IfOk};
ghost use Rattle.sat_solver.specs.Markings.{is_marked};

use std::alloc::{AllocError, Global};
use std::marker::Model;

/// A mark or none for each variable.
///
/// What always holds (`IsMarks`):
/// - some, past: no stamp is above the present one, which is not 0.
///
/// A variable is marked where its stamp is the present one, so that a greater one takes all marks
/// off.
#[derive(Drop)]
pub struct Marks {
    stamps: Vec<u64>,
    present: u64,
}

impl Model for Marks {
    ghost use Rattle.sat_solver.specs.Markings.{Marked, IsMarks};

    ghost Value = { Marked };

    ghost view = { λ m. record { stamps = m.stamps.items; present = m.present } };

    ghost invariant = { λ m. IsMarks m.stamps.items m.present };
}

impl Marks {
    /// No mark on the variables up to that one.
    pub fn new(alloc: Global, vars: u32) -> Result<Marks, AllocError>
        requires { vars < 2 ^ 31 }
        ensures { IfOk result (λ m. length m.stamps ≡ vars + 1) }
    {
        let stamps = vec![in alloc; 0u64; vars as usize + 1]?;
        Ok(Marks { stamps, present: 1 })
    }

    pub fn is_marked(&self, var: u32) -> bool
        requires { var < length self.now.stamps }
        ensures { result ≡ is_marked self.now var }
    {
        self.stamps[var as usize] == self.present
    }

    pub fn mark(&mut self, var: u32)
        requires { var < length self.old.stamps }
        ensures long { length self.new.stamps ≡ length self.old.stamps }
        ensures marked { (v : ℕ) → is_marked self.new v ≡ (is_marked self.old v || var == v) }
    {
        self.stamps[var as usize] = self.present;
    }

    pub fn unmark(&mut self, var: u32)
        requires { var < length self.old.stamps }
        ensures long { length self.new.stamps ≡ length self.old.stamps }
        ensures marked { (v : ℕ) → is_marked self.new v ≡ (is_marked self.old v && not (var == v)) }
    {
        self.stamps[var as usize] = 0;
    }

    /// Takes all marks off.
    pub fn clear(&mut self)
        ensures long { length self.new.stamps ≡ length self.old.stamps }
        ensures none { (v : ℕ) → is_marked self.new v ≡ false }
    {
        if self.present == u64::MAX {
            forget(&mut self.stamps);
            self.present = 0;
        }
        self.present += 1;
    }
}

fn forget(stamps: &mut [u64])
    ensures long { length stamps.new ≡ length stamps.old }
    ensures zero { (v : ℕ) → slice_index stamps.new v ≡ 0 }
{
    for at in 0..stamps.len() {
        stamps[at] = 0;
    }
}
