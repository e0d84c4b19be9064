//! Lists of whole numbers over one denominator, and their greatest common divisor.
ghost use Rattle.std.specs.Prelude.{◌≡◌, ℕ, ◌<◌, length, pos, ◌*ℤ◌, ◌<ℤ◌, unsigned_abs, IfOk};
ghost use Rattle.std.specs.Int.{◌∣◌};
ghost use Rattle.sc_basis.specs.Products.{at, IsReduced};
ghost use Rattle.sc_basis.specs.Divisors.{IsCommonDivisor};
ghost use Rattle.sc_basis.specs.Rules.{IsLowest};

use sc_whole::{gcd, gcd_of_sizes, quotient};
use std::alloc::{AllocError, Global};
use std::marker::Model;

/// Numerators over one denominator.
#[derive(Debug, Drop)]
pub(crate) struct Quotients {
    pub(crate) entries: Vec<i128>,
    pub(crate) den: i128,
}

impl Model for Quotients {
    ghost use Rattle.sc_rows.specs.Lines.{Line};

    ghost Value = { Line };

    ghost view = { λ list. record { entries = list.entries.items; den = list.den } };
}

/// A ratio in lowest terms.
#[derive(Clone, Copy, Debug)]
pub(crate) struct Ratio {
    pub(crate) num: i128,
    pub(crate) den: i128,
}

/// The ratio of `a` to `m`.
pub(crate) fn lowest(m: i128, a: i128) -> Ratio
    requires { pos 0 <ℤ m }
    ensures { IsLowest m a result.den result.num }
{
    let divisor = gcd(m, a);
    Ratio {
        num: quotient(a, divisor),
        den: quotient(m, divisor),
    }
}

/// The greatest common divisor of a list and its denominator. Nothing is looked at once it is 1.
fn common_divisor(entries: &[i128], den: i128) -> u128
    ensures { IsCommonDivisor (length entries.now) (at entries.now) den result }
{
    let mut divisor = den.unsigned_abs();
    for index in 0..entries.len() {
        if divisor == 1 {
            return 1;
        }
        divisor = gcd_of_sizes(divisor, entries[index].unsigned_abs());
    }
    divisor
}

/// Divides each number by a divisor of all.
fn divide(entries: &mut [i128], divisor: u128)
    requires positive { 0 < divisor }
    requires divides { (k : ℕ) → k < length entries.old → divisor ∣ unsigned_abs (at entries.old k) }
    ensures { (k : ℕ) → k < length entries.old → pos divisor *ℤ at entries.new k ≡ at entries.old k }
{
    for index in 0..entries.len() {
        entries[index] = quotient(entries[index], divisor);
    }
}

/// The list over the denominator with their greatest common divisor taken out of both.
pub(crate) fn reduce(mut entries: Vec<i128>, den: i128) -> Quotients
    requires { pos 0 <ℤ den }
    ensures size { length result.entries ≡ length entries.items }
    ensures reduced { IsReduced (length entries.items) (at result.entries) result.den (at entries.items) den }
{
    let divisor = common_divisor(entries.as_slice(), den);
    if divisor == 1 {
        return Quotients { entries, den };
    }
    divide(entries.as_mut_slice(), divisor);
    Quotients {
        entries,
        den: quotient(den, divisor),
    }
}

/// The list over a number, in lowest terms.
pub(crate) fn over(alloc: Global, entries: &[i128], product: i128) -> Result<Quotients, AllocError>
    requires { pos 0 <ℤ product }
    ensures size { IfOk result (λ left. length left.entries ≡ length entries.now) }
    ensures reduced { IfOk result (λ left. IsReduced (length entries.now) (at left.entries) left.den (at entries.now) product) }
{
    Ok(reduce(Vec::from_slice(alloc, entries)?, product))
}
