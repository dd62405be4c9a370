//! The blocks that a seed draws.
ghost use Rattle.std.specs.Prelude.{◌≡◌, IfOk};
ghost use Rattle.sdcv_gen.specs.Draws.{block_of, drawn};

use crate::blocks::Block;
use rand_core::SeedableRng;
use rand_core::utils::NextWord;
use rand_pcg::Lcg64Xsh32;
use std::alloc::{AllocError, Global};

// The block of a drawn word.
fn block_of(word: u32) -> Block
    ensures { result ≡ block_of word }
{
    match word % 4 {
        0 => Block::Tied,
        1 => Block::Direct,
        2 => Block::Phases,
        _ => Block::Ring,
    }
}

/// The first blocks of a seed.
pub(crate) fn drawn(alloc: Global, seed: u64, size: usize) -> Result<Vec<Block>, AllocError>
    ensures { IfOk result (λ blocks. blocks.items ≡ drawn seed size) }
{
    let mut rng = Lcg64Xsh32::seed_from_u64(seed);
    let mut blocks = Vec::new(alloc);
    'draws: for _ in 0..size {
        blocks.push(block_of(rng.next_word()))?;
    }
    Ok(blocks)
}
