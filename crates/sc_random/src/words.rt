//! Words of draws, and their commutators.

ghost use Rattle.std.specs.Prelude.{◌≡◌, ◌≤◌, length, IfOk};
ghost use Rattle.sc_random.specs.Drawn as drawn;

use crate::letters::taken;
use sc_chain::Word;
use sc_reduce::inverse_of;
use std::alloc::{AllocError, Global};

/// The word of draws, a letter each.
fn drawn_word(alloc: Global, draws: &[u32]) -> Result<Word, AllocError>
    ensures { IfOk result (λ word. word ≡ drawn.drawn_word draws.now) }
{
    let mut word = Word::new(alloc);
    let mut before = None;
    for draw in draws {
        let letter = taken(before, *draw);
        word.push(letter)?;
        before = Some(letter);
    }
    Ok(word)
}

/// Two words, and then their inverses.
fn commutator(alloc: Global, first: &Word, second: &Word) -> Result<Word, AllocError>
    ensures { IfOk result (λ word. word ≡ drawn.commutator first.now second.now) }
{
    let first_inverse = inverse_of(alloc, first)?;
    let second_inverse = inverse_of(alloc, second)?;
    let mut letters = Vec::from_slice(alloc, first.as_slice())?;
    letters.extend_from_slice(second.as_slice())?;
    letters.extend_from_slice(first_inverse.as_slice())?;
    letters.extend_from_slice(second_inverse.as_slice())?;
    Ok(Word::from_letters(letters))
}

/// The commutator of the word of the first draws, so many of them, and that of the others.
pub(crate) fn drawn_commutator(
    alloc: Global,
    letters: usize,
    draws: &[u32],
) -> Result<Word, AllocError>
    requires { letters ≤ length draws.now }
    ensures { IfOk result (λ word. word ≡ drawn.drawn_commutator letters draws.now) }
{
    let (first_draws, second_draws) = draws.split_at(letters);
    let first = drawn_word(alloc, first_draws)?;
    let second = drawn_word(alloc, second_draws)?;
    commutator(alloc, &first, &second)
}
