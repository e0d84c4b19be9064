//! The line of a value, a fraction in lowest terms.

ghost use Rattle.std.specs.Prelude.{◌≡◌, ◌≤◌, ◌++◌, false, pos, Some, IfOk, IfErr, OnOk, OnErr};
ghost use Rattle.sc_line.specs.declared.fault.Kind.TheVariants as kinds;
ghost use Rattle.sc_fraction.specs.Frac.{numerator, denominator, frac_text};
ghost use Rattle.sc_line.specs.Lines.{ended};
ghost use Rattle.sc_line.specs.Printing.{AppendsPart};
ghost use Rattle.sc_text.specs.ValueLines.{are_coprime, fraction_up_to_fault, quotient_of, IsFractionUpTo, IsValueInRange};
ghost use Rattle.sc_text.specs.ValueLines as lines;

use crate::limits::MAX_VALUE;
use crate::printing::{Field, print_line};
use sc_fraction::Frac;
use sc_line::{Fields, Kind, cut, in_range, number_of};
use std::alloc::AllocError;

// num/den, where it is in lowest terms.
fn lowest(num: u32, den: u32) -> Result<Frac, Kind>
    requires { 1 ≤ den }
    ensures ok { IfOk result (λ v. (numerator v ≡ pos num) × (denominator v ≡ pos den)) }
    ensures err { IfErr result (λ kind. (kind ≡ kinds.Range) × (are_coprime num den ≡ false)) }
{
    let den = i128::from(den);
    let Ok(value) = Frac::new(i128::from(num), den) else {
        return Err(Kind::Range);
    };
    if value.den() == den {
        Ok(value)
    } else {
        Err(Kind::Range)
    }
}

/// The fraction of a field `NUM/DEN` in lowest terms, the numerator from 0 and the denominator from 1 to `most`.
pub fn fraction_of(field: &[u8], most: u32) -> Result<Frac, Kind>
    ensures ok { IfOk result (λ v. (field.now ≡ frac_text v) × IsFractionUpTo most (quotient_of v)) }
    ensures err { IfErr result (λ kind. fraction_up_to_fault most field.now ≡ Some kind) }
{
    let Some((num, den)) = cut(field, b'/') else {
        return Err(Kind::Form);
    };
    let num = number_of(num)?;
    let den = number_of(den)?;
    let num = in_range(num, 0, most)?;
    let den = in_range(den, 1, most)?;
    lowest(num, den)
}

/// The fraction of a line `value NUM/DEN`, whose numbers are those of the line.
pub fn value_line(line: &[u8]) -> Result<Frac, Kind>
    ensures ok { IfOk result (λ v. (line.now ≡ lines.value_line (quotient_of v)) × IsValueInRange (quotient_of v)) }
    ensures err { IfErr result (λ kind. lines.value_fault line.now ≡ Some kind) }
{
    let mut fields = Fields::of(line);
    fields.name(b"value")?;
    let Some(field) = fields.next() else {
        return Err(Kind::Form);
    };
    fields.end()?;
    fraction_of(field, MAX_VALUE)
}

/// Appends the line of a fraction.
pub fn print_value_line(value: &Frac, out: &mut Vec<u8>) -> Result<(), AllocError>
    ensures ok { OnOk result (out.new.items ≡ out.old.items ++ ended (lines.value_line (quotient_of value.now))) }
    ensures err { OnErr result (AppendsPart out.old.items out.new.items (ended (lines.value_line (quotient_of value.now)))) }
{
    print_line(b"value", &[Field::Fraction(value)], out)
}
