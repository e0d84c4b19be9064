//! Exact division.
ghost use Rattle.std.specs.Prelude.{◌≡◌, ◌<◌, pos, ◌*ℤ◌, unsigned_abs, int_div};
ghost use Rattle.std.specs.Int.{◌∣◌};

/// `x` divided by one of its divisors, which is up to 2^127.
pub fn quotient(x: i128, divisor: u128) -> i128
    requires positive { 0 < divisor }
    requires divides { divisor ∣ unsigned_abs x }
    ensures value { result ≡ int_div x (pos divisor) }
    ensures exact { pos divisor *ℤ result ≡ x }
{
    match i128::try_from(divisor) {
        Ok(divisor) => x / divisor,
        // The divisor is 2^127, and `x` is 0 or the least number.
        Err(_) => x.signum(),
    }
}
