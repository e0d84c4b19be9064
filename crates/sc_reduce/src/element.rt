//! Words as elements of the free group.

ghost use Rattle.std.specs.Prelude.{◌≡◌, ◌↔◌, map, reverse, IfOk, IsTrue};
ghost use Rattle.sc_theory.specs.Words.{inverse_letter, inverse_word, SameElement};

use crate::free::free_reduce;
use sc_chain::{Letter, Word};
use std::alloc::{AllocError, Global};

/// The inverse letters in reverse order.
fn inverse_letters(alloc: Global, letters: &[Letter]) -> Result<Vec<Letter>, AllocError>
    ensures { IfOk result (λ v. v.items ≡ map inverse_letter (reverse letters.now)) }
{
    letters
        .iter()
        .rev()
        .map(|letter| sc_chain::inverse_of(*letter))
        .collect(alloc)
}

/// The letters in reverse order with their signs changed.
pub fn inverse_of(alloc: Global, word: &Word) -> Result<Word, AllocError>
    ensures { IfOk result (λ v. v ≡ inverse_word word.now) }
{
    Ok(Word::from_letters(inverse_letters(alloc, word.as_slice())?))
}

/// Whether two words are the same element of the free group.
pub fn same_element(alloc: Global, u: &Word, v: &Word) -> Result<bool, AllocError>
    ensures { IfOk result (λ same. IsTrue same ↔ SameElement u.now v.now) }
{
    let first = free_reduce(alloc, u)?;
    let second = free_reduce(alloc, v)?;
    Ok(first.as_slice() == second.as_slice())
}
