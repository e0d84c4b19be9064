//! Whether a line separates two chains.

ghost use Rattle.std.specs.Prelude.{◌≡◌};
ghost use Rattle.sc_two.specs.TwoTexts as texts;

use sc_words::{is_blank, without_carriage_return};

/// Whether the only field of a line is a slash.
pub(crate) fn is_separator(line: &[u8]) -> bool
    ensures { result ≡ texts.is_separator line.now }
{
    let line = without_carriage_return(line);
    let mut found = false;
    for byte in line {
        if *byte == b'/' && !found {
            found = true;
        } else if !is_blank(*byte) {
            return false;
        }
    }
    found
}
