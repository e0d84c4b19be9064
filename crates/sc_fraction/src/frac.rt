//! Fractions in lowest terms.
ghost use Rattle.std.specs.Prelude.{pos, unsigned_abs, ◌<ℤ◌};
ghost use Rattle.std.specs.Int.{IsGcd};

use crate::steps::{products, scaled_sum, turned};
use crate::{FracFault, compare_ratios};
use sc_whole::{Op, Wide, gcd, print_decimal, quotient};
use std::alloc::AllocError;
use std::cmp::Ordering;

/// A fraction in lowest terms, its denominator from 1 to 2^127 - 1. Fractions of equal value are equal.
#[derive(Clone, Copy, Debug, PartialEq, Eq, Hash)]
pub struct Frac {
    num: i128,
    den: i128,
    pub ghost positive: { pos 0 <ℤ den },
    pub ghost reduced: { IsGcd (unsigned_abs num) (unsigned_abs den) 1 },
}

impl Frac {
    ghost use Rattle.std.specs.Prelude.{◌≡◌, ◌↔◌, ◌++◌, ℕ, ◌*ℤ◌, int_div, take, vec_len, IfOk, IfErr, OnOk, OnErr};
    ghost use Rattle.sc_whole.specs.Operation.{exact_result, AllFit, IsFirstWide};
    ghost use Rattle.sc_fraction.specs.Fault.{IfWide};
    ghost use Rattle.sc_fraction.specs.Frac.{numerator, denominator, IsQuotient, IsSum, IsDifference, IsProduct, IsRatio, ForSum, ForProduct, ForRatio, frac_text};
    ghost use Rattle.sc_fraction.specs.Steps.{ForReduced};

    /// `num / den` in lowest terms. `Zero` where `den` is 0, and `Wide` where the reduced fraction doesn't fit.
    pub fn new(num: i128, den: i128) -> Result<Frac, FracFault>
        ensures value { IfOk result (IsQuotient num den) }
        ensures zero { (result ≡ Err FracFault.Zero) ↔ (den ≡ pos 0) }
        ensures fits { OnOk result (ForReduced num den AllFit) }
        ensures evidence { IfErr result (λ fault. IfWide fault (λ w. ForReduced num den (λ steps. IsFirstWide steps w))) }
    {
        if den == 0 {
            return Err(FracFault::Zero);
        }
        let divisor = gcd(num, den);
        let (num, den) = turned(quotient(num, divisor), quotient(den, divisor))?;
        Ok(Frac { num, den })
    }

    /// The numerator, which has the sign of the fraction.
    pub fn num(&self) -> i128
        ensures { result ≡ numerator self.now }
    {
        self.num
    }

    /// The denominator, from 1 to 2^127 - 1.
    pub fn den(&self) -> i128
        ensures value { result ≡ denominator self.now }
        ensures positive { pos 0 <ℤ result }
    {
        self.den
    }

    /// The sum, or the first number on the way to it that is outside `i128`.
    pub fn plus(&self, other: &Frac) -> Result<Frac, Wide>
        ensures value { IfOk result (IsSum self.now other.now) }
        ensures fits { OnOk result (ForSum Op.Add self.now other.now AllFit) }
        ensures evidence { IfErr result (λ w. ForSum Op.Add self.now other.now (λ steps. IsFirstWide steps w)) }
    {
        let (sum, den) = self.combined(Op::Add, other)?;
        Ok(Frac::lowest(sum, den))
    }

    /// The difference, or the first number on the way to it that is outside `i128`.
    pub fn minus(&self, other: &Frac) -> Result<Frac, Wide>
        ensures value { IfOk result (IsDifference self.now other.now) }
        ensures fits { OnOk result (ForSum Op.Sub self.now other.now AllFit) }
        ensures evidence { IfErr result (λ w. ForSum Op.Sub self.now other.now (λ steps. IsFirstWide steps w)) }
    {
        let (difference, den) = self.combined(Op::Sub, other)?;
        Ok(Frac::lowest(difference, den))
    }

    /// The product, or the first number on the way to it that is outside `i128`.
    pub fn times(&self, other: &Frac) -> Result<Frac, Wide>
        ensures value { IfOk result (IsProduct self.now other.now) }
        ensures fits { OnOk result (ForProduct self.now other.now AllFit) }
        ensures evidence { IfErr result (λ w. ForProduct self.now other.now (λ steps. IsFirstWide steps w)) }
    {
        let own = gcd(self.num, other.den);
        let across = gcd(other.num, self.den);
        let (num, den) = products(
            quotient(self.num, own),
            quotient(other.num, across),
            quotient(self.den, across),
            quotient(other.den, own),
        )?;
        Ok(Frac { num, den })
    }

    /// The ratio, or the first number on the way to it that is outside `i128`. `Zero` where `other` is 0.
    pub fn over(&self, other: &Frac) -> Result<Frac, FracFault>
        ensures value { IfOk result (IsRatio self.now other.now) }
        ensures zero { (result ≡ Err FracFault.Zero) ↔ (numerator other.now ≡ pos 0) }
        ensures fits { OnOk result (ForRatio self.now other.now AllFit) }
        ensures evidence { IfErr result (λ fault. IfWide fault (λ w. ForRatio self.now other.now (λ steps. IsFirstWide steps w))) }
    {
        if other.num == 0 {
            return Err(FracFault::Zero);
        }
        let (num, den) = turned(other.den, other.num)?;
        Ok(self.times(&Frac { num, den })?)
    }

    /// Appends `NUM/DEN` to `out`. After a refusal `out` is unchanged.
    pub fn print(&self, out: &mut Vec<u8>) -> Result<(), AllocError>
        ensures printed { OnOk result (out.new.items ≡ out.old.items ++ frac_text self.now) }
        ensures unchanged { OnErr result (out.new.items ≡ out.old.items) }
    {
        let before = out.len();
        let printed = self.append_to(out);
        if printed.is_err() {
            out.truncate(before);
        }
        printed
    }

    // The two numbers of the sum or difference over the least common denominator.
    fn combined(&self, op: Op, other: &Frac) -> Result<(i128, i128), Wide>
        ensures value { (g : ℕ) → IsGcd (unsigned_abs (denominator self.now)) (unsigned_abs (denominator other.now)) g →
            IfOk result (λ r. r ≡ (
              exact_result op (numerator self.now *ℤ int_div (denominator other.now) (pos g)) (numerator other.now *ℤ int_div (denominator self.now) (pos g)),
              denominator self.now *ℤ int_div (denominator other.now) (pos g),
            )) }
        ensures fits { OnOk result (ForSum op self.now other.now AllFit) }
        ensures evidence { IfErr result (λ w. ForSum op self.now other.now (λ steps. IsFirstWide steps w)) }
    {
        let divisor = gcd(self.den, other.den);
        let (scale, other_scale) = (quotient(other.den, divisor), quotient(self.den, divisor));
        scaled_sum(op, self.num, self.den, other.num, scale, other_scale)
    }

    fn append_to(&self, out: &mut Vec<u8>) -> Result<(), AllocError>
        ensures printed { OnOk result (out.new.items ≡ out.old.items ++ frac_text self.now) }
        ensures kept { take (vec_len out.old) out.new.items ≡ out.old.items }
    {
        print_decimal(self.num, out)?;
        out.push(b'/')?;
        print_decimal(self.den, out)
    }

    // The quotient of two numbers, the second above 0.
    fn lowest(num: i128, den: i128) -> Frac
        requires { pos 0 <ℤ den }
        ensures { IsQuotient num den result }
    {
        let divisor = gcd(num, den);
        Frac {
            num: quotient(num, divisor),
            den: quotient(den, divisor),
        }
    }
}

impl Ord for Frac {
    ghost use Rattle.sc_fraction.specs.Frac.{frac_cmp};
    ghost use Rattle.sc_fraction.specs.Laws.{frac_cmp_total, frac_eq_is};
    ghost use Rattle.std.specs.Prelude.{refl};

    ghost cmp = { frac_cmp };

    ghost total = { frac_cmp_total };

    ghost matches_partial_cmp = { λ x y. refl };

    ghost matches_eq = { frac_eq_is };

    fn cmp(&self, other: &Frac) -> Ordering {
        compare_ratios(self.num, self.den, other.num, other.den)
    }
}

impl PartialOrd for Frac {
    ghost use Rattle.std.specs.Ordering.{as_partial_cmp};
    ghost use Rattle.sc_fraction.specs.Frac.{frac_cmp};
    ghost use Rattle.sc_fraction.specs.Laws.{frac_partial_order};

    ghost partial_cmp = { as_partial_cmp frac_cmp };

    ghost laws = { frac_partial_order };

    fn partial_cmp(&self, other: &Frac) -> Option<Ordering> {
        Some(self.cmp(other))
    }
}
