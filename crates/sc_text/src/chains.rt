//! The chains of texts.

ghost use Rattle.std.specs.Prelude.{◌≡◌, IfOk};
ghost use Rattle.sc_text.specs.Surfaces.{IsChainInRange};

use sc_chain::{Chain, ChainFault, Word};
use std::alloc::{AllocError, Global};

/// The chain of words that a text may hold.
pub fn chain_of_words(alloc: Global, words: Vec<(u32, Word)>) -> Result<Chain, AllocError>
    requires { IsChainInRange words.items }
    ensures { IfOk result (λ chain. chain ≡ words.items) }
{
    match Chain::of_reduced(alloc, words) {
        Ok(chain) => Ok(chain),
        // a match of its own, in whose last arm the fault is known not to be want of memory
        Err(fault) => match fault {
            ChainFault::Memory => Err(AllocError),
            _ => unreachable!(),
        },
    }
}

// The same words with their weights once more.
fn copy_words(alloc: Global, words: &[(u32, Word)]) -> Result<Vec<(u32, Word)>, AllocError>
    ensures { IfOk result (λ copies. copies.items ≡ words.now) }
{
    let mut copies = Vec::with_capacity(alloc, words.len())?;
    for entry in words {
        copies.push((entry.0, entry.1.copy(alloc)?))?;
    }
    Ok(copies)
}

/// The chain of words that a text may hold, which are copied.
pub fn chain_of(alloc: Global, words: &[(u32, Word)]) -> Result<Chain, AllocError>
    requires { IsChainInRange words.now }
    ensures { IfOk result (λ chain. chain ≡ words.now) }
{
    let copies = copy_words(alloc, words)?;
    let chain = chain_of_words(alloc, copies)?;
    Ok(chain)
}
