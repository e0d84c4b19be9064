//! Words.

ghost use Rattle.std.specs.Prelude.{◌≡◌, ◌<◌, ◌↔◌, [], ◌∷◌, ◌++◌, length, get_or, IsTrue, IfOk, OnOk, OnErr, MatchOption};
ghost use Rattle.sc_theory.specs.Words.{IsReduced};
ghost use Rattle.sc_theory.specs.Places.{IsLeastCancelling};
ghost use Rattle.sc_theory.specs.Chains.{no_letter};

use crate::letter::is_inverse;
use sc_theory::Letter;
use std::alloc::{AllocError, Global};
use std::marker::Model;

/// The first place whose letter is the inverse of the next one round the word.
pub fn least_cancelling(word: &[Letter]) -> Option<usize>
    ensures { MatchOption result (IsReduced word.now) (IsLeastCancelling word.now) }
{
    for (place, letter) in word.iter().enumerate() {
        let next = if place + 1 == word.len() {
            0
        } else {
            place + 1
        };
        if is_inverse(*letter, word[next]) {
            return Some(place);
        }
    }
    None
}

/// A list of letters, reduced or not.
#[derive(Debug, Drop)]
pub struct Word {
    letters: Vec<Letter>,
}

impl Model for Word {
    ghost use Rattle.std.specs.Prelude.{List};
    ghost use Rattle.sc_theory.specs.declared.Letter.{Letter};

    ghost Value = { List Letter };

    ghost view = { λ w. w.letters.items };
}

impl Word {
    /// A word of no letters.
    pub fn new(alloc: Global) -> Word
        ensures { result ≡ [] }
    {
        Word {
            letters: Vec::new(alloc),
        }
    }

    /// The word of these letters.
    pub fn from_slice(alloc: Global, letters: &[Letter]) -> Result<Word, AllocError>
        ensures { IfOk result (λ w. w ≡ letters.now) }
    {
        Ok(Word {
            letters: Vec::from_slice(alloc, letters)?,
        })
    }

    /// The word of a list of letters.
    pub fn from_letters(letters: Vec<Letter>) -> Word
        ensures { result ≡ letters.items }
    {
        Word { letters }
    }

    /// Writes a letter behind the others. The word stays as it is where memory runs out.
    pub fn push(&mut self, letter: Letter) -> Result<(), AllocError>
        ensures ok { OnOk result (self.new ≡ self.old ++ letter ∷ []) }
        ensures err { OnErr result (self.new ≡ self.old) }
    {
        self.letters.push(letter)?;
        Ok(())
    }

    /// How many letters there are.
    pub fn len(&self) -> usize
        ensures { result ≡ length self.now }
    {
        self.letters.len()
    }

    /// Whether there is no letter.
    pub fn is_empty(&self) -> bool
        ensures { IsTrue result ↔ (self.now ≡ []) }
    {
        self.letters.is_empty()
    }

    /// The letter at a place, counted from 0.
    pub fn letter(&self, place: usize) -> Letter
        requires { place < length self.now }
        ensures { result ≡ get_or self.now place no_letter }
    {
        self.letters[place]
    }

    /// The letters in their order.
    pub fn as_slice(&self) -> &[Letter]
        ensures { result.now ≡ self.now }
    {
        self.letters.as_slice()
    }

    /// Whether no letter is the inverse of the next one round the word.
    pub fn is_reduced(&self) -> bool
        ensures { IsTrue result ↔ IsReduced self.now }
    {
        least_cancelling(self.as_slice()).is_none()
    }

    /// The same word once more.
    pub fn copy(&self, alloc: Global) -> Result<Word, AllocError>
        ensures { IfOk result (λ w. w ≡ self.now) }
    {
        Word::from_slice(alloc, self.as_slice())
    }
}
