//! Letters: against each other, and how they are spelled.

ghost use Rattle.std.specs.Prelude.{◌≡◌, ◌<◌, is_some, IfOk, IfSome};
ghost use Rattle.std.specs.List.{All, filter_map, list_all};
ghost use Rattle.sc_words.specs.declared.limits.TheConstants.{GENERATORS};
ghost use Rattle.sc_theory.specs.Words.{inverse_letter as the_inverse, is_inverse as are_inverse};
ghost use Rattle.sc_words.specs.Spelling as spelling;

use sc_theory::Letter;
use std::alloc::{AllocError, Global};

/// Whether one letter is the inverse of the other.
pub fn is_inverse(x: Letter, y: Letter) -> bool
    ensures { result ≡ are_inverse x y }
{
    x.number == y.number && x.inverse != y.inverse
}

/// The letter of the same generator and the other sign.
pub fn inverse_of(x: Letter) -> Letter
    ensures { result ≡ the_inverse x }
{
    Letter {
        number: x.number,
        inverse: !x.inverse,
    }
}

/// The letter that a byte spells: `a` to `z` are the generators, and `A` to `Z` their inverses.
pub fn letter_of(byte: u8) -> Option<Letter>
    ensures letter { result ≡ spelling.letter_of byte }
    ensures generator { IfSome result (λ x. x.number < GENERATORS) }
{
    match byte {
        b'a'..=b'z' => Some(Letter {
            number: byte - b'a',
            inverse: false,
        }),
        b'A'..=b'Z' => Some(Letter {
            number: byte - b'A',
            inverse: true,
        }),
        _ => None,
    }
}

/// Whether each byte spells a letter.
pub fn are_letters(bytes: &[u8]) -> bool
    ensures { result ≡ list_all (λ b. is_some (spelling.letter_of b)) bytes.now }
{
    bytes.iter().all(|byte| letter_of(*byte).is_some())
}

/// The letters that bytes spell.
pub fn letters_of(alloc: Global, bytes: &[u8]) -> Result<Vec<Letter>, AllocError>
    ensures letters { IfOk result (λ letters. letters.items ≡ filter_map spelling.letter_of bytes.now) }
    ensures generators { IfOk result (λ letters. All (λ x. x.number < GENERATORS) letters.items) }
{
    bytes
        .iter()
        .filter_map(|byte| letter_of(*byte))
        .collect(alloc)
}
