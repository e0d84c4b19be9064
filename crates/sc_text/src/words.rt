//! The lines of words.

ghost use Rattle.std.specs.Prelude.{◌≡◌, ◌≤◌, ◌-◌, ◌&&◌, not, ◌==◌, length, Some, IfOk, IfErr, ℤ, pos};
ghost use Rattle.std.specs.List.{list_all};
ghost use Rattle.sc_text.specs.Words as spellings;
ghost use Rattle.sc_text.specs.Words.{is_letter_of, word_within, weighted_word_fault, a_word};
ghost use Rattle.sc_theory.specs.Chains.{positions};
ghost use Rattle.sc_line.specs.Lines.{IsNarrowed};
ghost use Rattle.sc_line.specs.LineFaults.{IsFault};
ghost use Rattle.sc_line.specs.Forms.{Tells};

use crate::limits::Limits;
use sc_chain::{Word, letter_of, letters_of};
use sc_line::{Fields, Kind, LineFault, LineItem, in_range};
use std::alloc::Global;

fn is_letter(byte: u8, generators: u8) -> bool
    ensures { result ≡ is_letter_of generators byte }
{
    match letter_of(byte) {
        Some(letter) => letter.number < generators,
        None => false,
    }
}

fn are_letters(field: &[u8], generators: u8) -> bool
    ensures { result ≡ list_all (is_letter_of generators) field.now }
{
    field.iter().all(|byte| is_letter(*byte, generators))
}

fn spells_word(field: &[u8], generators: u8) -> bool
    ensures { result ≡ (not (length field.now == 0) && list_all (is_letter_of generators) field.now) }
{
    !field.is_empty() && are_letters(field, generators)
}

// A weight, and a word of at most `room` letters.
fn weighted_word(
    alloc: Global,
    weight: Option<i128>,
    letters: &[u8],
    room: usize,
    limits: &Limits,
) -> Result<(u32, Word), LineFault>
    ensures ok { IfOk result (λ w. (weight ≡ Some (pos w.0)) × (spellings.spelled w.1 ≡ letters.now) × spellings.IsWordWithin limits.now w × (length w.1 ≤ room) × (word_within limits.now.generators letters.now ≡ Some w.1)) }
    ensures err { (z : ℤ) → IsNarrowed z weight → IfErr result (IsFault (weighted_word_fault limits.now room (Some z) (word_within limits.now.generators letters.now))) }
{
    if !spells_word(letters, limits.generators) {
        return Err(LineFault::Malformed(Kind::Form));
    }
    let weight = in_range(weight, 1, limits.weight)?;
    if letters.len() > room {
        return Err(LineFault::Malformed(Kind::Range));
    }
    let word = Word::from_letters(letters_of(alloc, letters)?);
    if !word.is_reduced() {
        return Err(LineFault::Malformed(Kind::NotReduced));
    }
    Ok((weight, word))
}

/// The weight and the word of a line `word WEIGHT LETTERS` within these limits, where at most `room` letters may come.
pub fn word_line(
    alloc: Global,
    line: &[u8],
    room: usize,
    limits: &Limits,
) -> Result<(u32, Word), LineFault>
    ensures ok { IfOk result (λ w. (line.now ≡ spellings.word_line w) × spellings.IsWordWithin limits.now w × (length w.1 ≤ room)) }
    ensures tells { IfOk result (Tells (a_word limits.now room) line.now) }
    ensures err { IfErr result (IsFault (spellings.word_fault limits.now room line.now)) }
{
    let mut fields = Fields::of(line);
    fields.name(b"word")?;
    let weight = fields.number()?;
    let Some(letters) = fields.next() else {
        return Err(LineFault::Malformed(Kind::Form));
    };
    fields.end()?;
    weighted_word(alloc, weight, letters, room, limits)
}

// How many letters words leave of so many.
fn room_behind(words: &[(u32, Word)], letters: usize) -> usize
    ensures { result ≡ letters - positions words.now }
{
    let mut room = letters;
    for entry in words {
        room = room.saturating_sub(entry.1.len());
    }
    room
}

/// The lines of words within these limits, which may have so many letters together.
#[derive(Drop)]
pub struct WordLines {
    pub letters: usize,
    pub limits: Limits,
}

impl LineItem for WordLines {
    type Context = ();

    type Value = (u32, Word);

    ghost kind = { λ k c before. a_word k.limits (k.letters - positions before) };

    fn read(
        &self,
        alloc: Global,
        line: &[u8],
        before: &[(u32, Word)],
        _context: &(),
    ) -> Result<(u32, Word), LineFault> {
        word_line(alloc, line, room_behind(before, self.letters), &self.limits)
    }
}
