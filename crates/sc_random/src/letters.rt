//! The letters that words are made of.

ghost use Rattle.std.specs.Prelude.{◌≡◌, ◌<◌, Some, All, IfSome};
ghost use Rattle.sc_random.specs.Drawn as drawn;

use sc_theory::Letter;

const A: Letter = Letter {
    number: 0,
    inverse: false,
};

const B: Letter = Letter {
    number: 1,
    inverse: false,
};

const INVERSE_A: Letter = Letter {
    number: 0,
    inverse: true,
};

const INVERSE_B: Letter = Letter {
    number: 1,
    inverse: true,
};

/// The letters that may stand behind a letter: all but its inverse.
fn letters_behind(letter: Letter) -> [Letter; 3]
    requires { letter.number < 2 }
    ensures letters { result ≡ drawn.letters_behind (Some letter) }
    ensures two { All (λ x. x.number < 2) result }
{
    match (letter.number, letter.inverse) {
        (0, false) => [A, B, INVERSE_B],
        (0, true) => [B, INVERSE_A, INVERSE_B],
        (_, false) => [A, B, INVERSE_A],
        (_, true) => [A, INVERSE_A, INVERSE_B],
    }
}

/// The letter that a draw takes behind a letter, or at the beginning of a word.
pub(crate) fn taken(before: Option<Letter>, draw: u32) -> Letter
    requires { IfSome before (λ x. x.number < 2) }
    ensures letter { result ≡ drawn.taken (drawn.letters_behind before) draw }
    ensures two { result.number < 2 }
{
    match before {
        None => [A, B, INVERSE_A, INVERSE_B][draw as usize % 4],
        Some(before) => letters_behind(before)[draw as usize % 3],
    }
}
