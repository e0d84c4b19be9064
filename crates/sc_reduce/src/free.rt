//! Free reduction, by a stack.

ghost use Rattle.std.specs.Prelude.{◌≡◌, [], ◌∷◌, ◌++◌, None, IfOk, OnOk};
ghost use Rattle.sc_theory.specs.Words.{delete_leftmost, free_reduction};

use sc_chain::{Letter, Word, is_inverse};
use std::alloc::{AllocError, Global};

/// Puts a letter on a stack that allows no deletion: where it is the inverse of the topmost letter, both go away.
fn push_letter(stack: &mut Vec<Letter>, letter: Letter) -> Result<(), AllocError>
    requires { delete_leftmost stack.old.items ≡ None }
    ensures { OnOk result (stack.new.items ≡ free_reduction (stack.old.items ++ letter ∷ [])) }
{
    match stack.last() {
        Some(last) if is_inverse(*last, letter) => {
            stack.pop();
        }
        _ => stack.push(letter)?,
    }
    Ok(())
}

/// What free deletions leave of a word.
pub fn free_reduce(alloc: Global, word: &Word) -> Result<Word, AllocError>
    ensures { IfOk result (λ v. v ≡ free_reduction word.now) }
{
    let mut stack = Vec::new(alloc);
    for letter in word.as_slice() {
        push_letter(&mut stack, *letter)?;
    }
    Ok(Word::from_letters(stack))
}
