//! A text up to the line that separates.

ghost use Rattle.std.specs.Prelude.{◌≡◌, ◌<◌, ◌^◌, length, MatchOption};
ghost use Rattle.sc_two.specs.inside.Parts.{IsPart, IsFollowed};

use crate::line::is_separator;
use sc_words::split_line;

/// The lines of a text before the first line whose only field is a slash.
#[derive(Drop)]
pub(crate) struct Part<'a> {
    /// These lines as a text.
    pub text: &'a [u8],
    /// How many they are.
    pub count: u32,
    /// What stands behind the line with the slash, where there is one.
    pub rest: Option<&'a [u8]>,
}

/// The part of a text before the first line whose only field is a slash.
pub(crate) fn first_part(text: &[u8]) -> Part<'_>
    requires { length text.now < 2 ^ 31 }
    ensures part { IsPart text.now result.text.now result.count }
    ensures rest { MatchOption result.rest (result.text.now ≡ text.now)
        (λ rest. IsFollowed text.now result.text.now rest.now) }
{
    let mut rest = text;
    let mut count = 0;
    while let Some((line, behind)) = split_line(rest) {
        if is_separator(line) {
            let (part, _) = text.split_at(text.len() - rest.len());
            return Part {
                text: part,
                count,
                rest: Some(behind),
            };
        }
        rest = behind;
        count += 1;
    }
    Part {
        text,
        count,
        rest: None,
    }
}
