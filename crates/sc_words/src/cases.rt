//! The case that a line has, or what is wrong with it first.

ghost use Rattle.std.specs.Prelude.{◌≡◌, ◌==◌, slice_index, None, Some, Ok, Err, MatchOption, MatchResult};
ghost use Rattle.std.specs.List.{filter_map};
ghost use Rattle.sc_words.specs.ChainText as texts;
ghost use Rattle.sc_words.specs.inside.Decision as decisions;
ghost use Rattle.sc_words.specs.Spelling as spelling;

use crate::coefficient::{begins_number, coefficient_of};
use crate::fields::{Fields, without_carriage_return};
use crate::letter::are_letters;
use sc_line::Kind;

fn is_ascii(line: &[u8]) -> bool
    ensures { result ≡ texts.is_ascii line.now }
{
    line.iter().all(|byte| *byte < 128)
}

fn begins_comment(field: &[u8]) -> bool
    ensures { result ≡ (slice_index field.now 0 == 35) }
{
    matches!(field, [b'#', ..])
}

/// A word with its coefficient, which should be the last field.
fn last_word<'a>(
    coefficient: i32,
    word: &'a [u8],
    mut rest: Fields<'a>,
) -> Result<(i32, &'a [u8]), Kind>
    ensures { MatchResult result
        (λ x. decisions.last_word coefficient (spelling.word_of word.now) (texts.fields rest.entry.rest.now) ≡ Ok (x.0, filter_map spelling.letter_of x.1.now))
        (λ kind. decisions.last_word coefficient (spelling.word_of word.now) (texts.fields rest.entry.rest.now) ≡ Err kind) }
{
    if !are_letters(word) {
        return Err(Kind::Letter);
    }
    match rest.next() {
        None => Ok((coefficient, word)),
        Some(_) => Err(Kind::Extra),
    }
}

/// The coefficient and the word of a line that is no comment and has a field.
fn entry_of<'a>(first: &'a [u8], mut rest: Fields<'a>) -> Result<(i32, &'a [u8]), Kind>
    ensures { MatchResult result
        (λ x. decisions.decision first.now (texts.fields rest.entry.rest.now) ≡ Ok (x.0, filter_map spelling.letter_of x.1.now))
        (λ kind. decisions.decision first.now (texts.fields rest.entry.rest.now) ≡ Err kind) }
{
    if !begins_number(first) {
        return last_word(1, first, rest);
    }
    let coefficient = coefficient_of(first).ok_or(Kind::Coefficient)?;
    let word = rest.next().ok_or(Kind::MissingWord)?;
    last_word(coefficient, word, rest)
}

/// What a line says: nothing, or a coefficient and a word.
pub fn case_of(line: &[u8]) -> Result<Option<(i32, &[u8])>, Kind>
    ensures { MatchResult result
        (λ entry. MatchOption entry
        (texts.line_case line.now ≡ Some None)
        (λ x. texts.line_case line.now ≡ Some (Some (x.0, filter_map spelling.letter_of x.1.now))))
        (λ kind. (texts.line_case line.now ≡ None) × (kind ≡ texts.line_kind line.now)) }
{
    let mut fields = Fields::of(without_carriage_return(line));
    let Some(first) = fields.next() else {
        return Ok(None);
    };
    if begins_comment(first) {
        return Ok(None);
    }
    match entry_of(first, fields) {
        Ok(entry) => Ok(Some(entry)),
        Err(_) if !is_ascii(line) => Err(Kind::NotAscii),
        Err(kind) => Err(kind),
    }
}
