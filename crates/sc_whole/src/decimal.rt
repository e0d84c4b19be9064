//! The one spelling of a whole number: `-` where it is negative, and its digits with no leading zero.
ghost use Rattle.std.specs.Prelude.{◌≡◌, ◌≢◌, ◌++◌, ◌↔◌, ◌<◌, ℕ, ℤ, All, slice_index, FitsSigned, IsNone, IfSome, IsTrue, OnOk, OnErr};
ghost use Rattle.std.specs.Int.{w128};
ghost use Rattle.std.specs.Char.{IsAsciiDigit};
ghost use Rattle.sc_whole.specs.Spelling.{natural_spelling, spelling};

use itoa::Buffer;
use std::alloc::AllocError;

/// The number whose one spelling is `text`. `None` where `text` is no such spelling (as `+1`, `01`, `-0`) or
/// spells a number outside `i128`.
pub fn read_decimal(text: &[u8]) -> Option<i128>
    ensures spelled { IfSome result (λ x. text.now ≡ spelling x) }
    ensures read { (x : ℤ) → FitsSigned w128 x → text.now ≡ spelling x → result ≡ Some x }
    ensures refused { IsNone result ↔ ((x : ℤ) → FitsSigned w128 x → text.now ≢ spelling x) }
{
    let x = parse_text(text)?;
    if is_spelling_of(text, x) {
        Some(x)
    } else {
        None
    }
}

// Std's parser takes more texts than the one spelling, as `+1` and `01`.
fn parse_text(text: &[u8]) -> Option<i128>
    ensures { (x : ℤ) → FitsSigned w128 x → text.now ≡ spelling x → result ≡ Some x }
{
    str::from_utf8(text).ok()?.parse().ok()
}

fn is_spelling_of(text: &[u8], x: i128) -> bool
    ensures { IsTrue result ↔ (text.now ≡ spelling x) }
{
    let mut buffer = Buffer::new();
    text == buffer.format(x).as_bytes()
}

/// Whether `text` is the one spelling of a whole number, of any size.
pub fn is_decimal(text: &[u8]) -> bool
    ensures { IsTrue result ↔ ((x : ℤ) × (text.now ≡ spelling x)) }
{
    if begins_with(text, b'-') {
        is_positive_decimal(&text[1..])
    } else {
        text == b"0".as_slice() || is_positive_decimal(text)
    }
}

fn is_positive_decimal(text: &[u8]) -> bool
    ensures { IsTrue result ↔ ((n : ℕ) × (0 < n) × (text.now ≡ natural_spelling n)) }
{
    if text.is_empty() || begins_with(text, b'0') {
        return false;
    }
    are_digits(text)
}

fn begins_with(text: &[u8], byte: u8) -> bool
    requires { 0 < byte }
    ensures { IsTrue result ↔ (slice_index text.now 0 ≡ byte) }
{
    !text.is_empty() && text[0] == byte
}

fn are_digits(text: &[u8]) -> bool
    ensures { IsTrue result ↔ All IsAsciiDigit text.now }
{
    text.iter().all(|c| c.is_ascii_digit())
}

/// Appends the one spelling of `x` to `out`. After a refusal `out` is unchanged.
pub fn print_decimal(x: i128, out: &mut Vec<u8>) -> Result<(), AllocError>
    ensures printed { OnOk result (out.new.items ≡ out.old.items ++ spelling x) }
    ensures unchanged { OnErr result (out.new.items ≡ out.old.items) }
{
    let mut buffer = Buffer::new();
    out.extend_from_slice(buffer.format(x).as_bytes())
}
