//! Draws: the outputs of a generator of random numbers.

ghost use Rattle.std.specs.Prelude.{◌≡◌, IfOk};
ghost use Rattle.sc_random.specs.Drawn.{draws_of};

use rand_core::SeedableRng;
use rand_core::utils::NextWord;
use rand_pcg::Lcg64Xsh32;
use std::alloc::{AllocError, Global};

/// The first draws of a seed.
pub(crate) fn draws_of(alloc: Global, seed: u64, count: usize) -> Result<Vec<u32>, AllocError>
    ensures { IfOk result (λ draws. draws.items ≡ draws_of seed count) }
{
    let mut generator = Lcg64Xsh32::seed_from_u64(seed);
    let mut draws = Vec::new(alloc);
    for _turn in 0..count {
        draws.push(generator.next_word())?;
    }
    Ok(draws)
}
