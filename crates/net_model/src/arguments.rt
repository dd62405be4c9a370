//! The values of the places of a function.
ghost use Rattle.std.specs.Prelude.{◌≡◌, ◌<◌, ℕ, if◌then◌else◌, nat_eq};
ghost use Rattle.net_model.specs.Args.{arg_at};

/// The values of the places 0 to 6: at most six pins, and a register's own bit.
#[derive(Clone, Copy)]
pub struct Args<V> {
    pub a0: V,
    pub a1: V,
    pub a2: V,
    pub a3: V,
    pub a4: V,
    pub a5: V,
    pub a6: V,
}

impl<V: Copy> Args<V> {
    /// The same value at each place.
    pub fn of(value: V) -> Args<V>
        ensures { (i : ℕ) → arg_at result i ≡ value }
    {
        Args {
            a0: value,
            a1: value,
            a2: value,
            a3: value,
            a4: value,
            a5: value,
            a6: value,
        }
    }

    /// The value at one place.
    pub fn at(&self, place: usize) -> V
        requires { place < 7 }
        ensures { result ≡ arg_at self.now place }
    {
        match place {
            0 => self.a0,
            1 => self.a1,
            2 => self.a2,
            3 => self.a3,
            4 => self.a4,
            5 => self.a5,
            _ => self.a6,
        }
    }

    /// Writes one place, and leaves the others.
    pub fn set(&mut self, place: usize, value: V)
        requires { place < 7 }
        ensures { (i : ℕ) → i < 7 → arg_at self.new i ≡ (if nat_eq i place then value else arg_at self.old i) }
    {
        match place {
            0 => self.a0 = value,
            1 => self.a1 = value,
            2 => self.a2 = value,
            3 => self.a3 = value,
            4 => self.a4 = value,
            5 => self.a5 = value,
            _ => self.a6 = value,
        }
    }
}
