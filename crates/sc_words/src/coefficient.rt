//! Coefficients.

ghost use Rattle.std.specs.Prelude.{◌≡◌, ◌≤◌, true, IfSome};
ghost use Rattle.std.specs.List.{list_all};
ghost use Rattle.std.specs.Prelude.{length};
ghost use Rattle.sc_words.specs.ChainText as texts;

use crate::limits::{COEFFICIENT_DIGITS, MAX_COEFFICIENT};

fn is_digit(byte: u8) -> bool
    ensures { result ≡ texts.is_digit byte }
{
    matches!(byte, b'0'..=b'9')
}

fn are_digits(bytes: &[u8]) -> bool
    ensures { result ≡ list_all texts.is_digit bytes.now }
{
    bytes.iter().all(|byte| is_digit(*byte))
}

/// The number that few digits write.
fn number_of(digits: &[u8]) -> u32
    requires few { length digits.now ≤ COEFFICIENT_DIGITS }
    requires digits { list_all texts.is_digit digits.now ≡ true }
    ensures { result ≡ texts.digits_number digits.now }
{
    let mut number = 0;
    for digit in digits {
        number = number * 10 + u32::from(*digit - b'0');
    }
    number
}

fn size_of(digits: &[u8]) -> Option<u32>
    ensures size { result ≡ texts.size_of digits.now }
    ensures small { IfSome result (λ n. n ≤ MAX_COEFFICIENT) }
{
    if digits.is_empty() || digits.len() > COEFFICIENT_DIGITS || !are_digits(digits) {
        return None;
    }
    let size = number_of(digits);
    if size > MAX_COEFFICIENT {
        return None;
    }
    Some(size)
}

/// The coefficient that a field writes.
pub fn coefficient_of(field: &[u8]) -> Option<i32>
    ensures { result ≡ texts.coefficient_of field.now }
{
    let (negative, digits) = match field {
        [b'+', digits @ ..] => (false, digits),
        [b'-', digits @ ..] => (true, digits),
        _ => (false, field),
    };
    let size = size_of(digits)? as i32;
    Some(if negative { -size } else { size })
}

/// Whether a digit, `+` or `-` comes first.
pub fn begins_number(field: &[u8]) -> bool
    ensures { result ≡ texts.begins_number field.now }
{
    matches!(field, [b'0'..=b'9' | b'+' | b'-', ..])
}
