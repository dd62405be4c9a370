//! The words that are drawn.
ghost use Rattle.std.specs.Prelude.{◌≡◌, ◌+◌, ℕ};
ghost use Rattle.drawn_runs.specs.Draws.{after, word};

use net_model::Lanes;
use rand_core::SeedableRng;
use rand_core::utils::next_u64_via_u32;
use rand_pcg::Lcg64Xsh32;

/// The generator before the first word.
pub(crate) fn first_draw() -> Lcg64Xsh32
    ensures { result ≡ after 0 }
{
    Lcg64Xsh32::seed_from_u64(0)
}

/// The next word.
pub(crate) fn draw(rng: &mut Lcg64Xsh32) -> Lanes
    ensures word { (k : ℕ) → rng.old ≡ after k → result ≡ word k }
    ensures next { (k : ℕ) → rng.old ≡ after k → rng.new ≡ after (k + 1) }
{
    Lanes(next_u64_via_u32(rng))
}
