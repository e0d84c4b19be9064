//! The command `check`.

ghost use Rattle.std.specs.Prelude.{◌≡◌, IfOk};
ghost use Rattle.sc_fraction.specs.Frac.{numerator, denominator};
ghost use Rattle.sc_app.specs.Answer.{status_of, text_of};
ghost use Rattle.sc_app.specs.Check.{CheckResponds, optimal};

use crate::answer::Answer;
use crate::rejection::rejected;
use sc_fraction::Frac;
use sc_prices::{Certificate, Verdict, judge};
use sc_text::{Field, print_line};
use std::alloc::{AllocError, Global};

/// The line of a least value.
fn optimal_text(alloc: Global, value: &Frac) -> Result<Vec<u8>, AllocError>
    ensures { IfOk result (λ text. text.items ≡ optimal (numerator value.now, denominator value.now)) }
{
    let mut text = Vec::new(alloc);
    print_line(b"optimal", &[Field::Fraction(value)], &mut text)?;
    Ok(text)
}

/// Reads a certificate and answers its value where its conditions all hold, so that its surface is least, or else the
/// first condition that fails.
pub fn answer_check(alloc: Global, input: &[u8]) -> Result<Answer, AllocError>
    ensures { IfOk result (λ answer. CheckResponds input.now (status_of answer) (text_of answer)) }
{
    let certificate = match Certificate::read(alloc, input) {
        Ok(certificate) => certificate,
        Err(fault) => return Answer::to_fault(fault),
    };
    match judge(alloc, certificate)? {
        Verdict::Optimal(value) => Ok(Answer::Text(optimal_text(alloc, &value)?)),
        Verdict::Rejected(condition) => rejected(alloc, condition),
    }
}
