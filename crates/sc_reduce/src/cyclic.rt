//! Cyclic reduction, by two moving ends.

ghost use Rattle.std.specs.Prelude.{◌≡◌, None, IfOk};
ghost use Rattle.sc_theory.specs.Words.{delete_leftmost, cyclic_reduction};

use crate::free::free_reduce;
use sc_chain::{Letter, Word, is_inverse};
use std::alloc::{AllocError, Global};

/// The middle of a word that allows no free deletion, where the letters at its ends aren't inverse any more.
fn without_inverse_ends(letters: &[Letter]) -> &[Letter]
    requires { delete_leftmost letters.now ≡ None }
    ensures { result.now ≡ cyclic_reduction letters.now }
{
    let mut rest = letters;
    while let [first, middle @ .., last] = rest {
        if !is_inverse(*first, *last) {
            break;
        }
        rest = middle;
    }
    rest
}

/// What free deletions and deletions of the ends leave of a word.
pub fn cyclic_reduce(alloc: Global, word: &Word) -> Result<Word, AllocError>
    ensures { IfOk result (λ v. v ≡ cyclic_reduction word.now) }
{
    let reduced = free_reduce(alloc, word)?;
    Word::from_slice(alloc, without_inverse_ends(reduced.as_slice()))
}
