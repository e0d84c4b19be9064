//! Greatest common divisors and least common multiples.
ghost use Rattle.std.specs.Prelude.{◌≡◌, ℕ, ◌<◌, ◌≤◌, ◌↔◌, unsigned_abs, IfSome, IsNone};
ghost use Rattle.std.specs.Int.{IsGcd};
ghost use Rattle.sc_whole.specs.Divisor.{IsLcm};

/// The greatest common divisor of the sizes of two numbers; 0 for two zeros. It is up to 2^127, which only a `u128`
/// holds.
pub fn gcd(x: i128, y: i128) -> u128
    ensures { IsGcd (unsigned_abs x) (unsigned_abs y) result }
{
    gcd_of_sizes(x.unsigned_abs(), y.unsigned_abs())
}

/// The greatest common divisor of two numbers without a sign; 0 for two zeros.
pub fn gcd_of_sizes(x: u128, y: u128) -> u128
    ensures { IsGcd x y result }
{
    let mut a = x;
    let mut b = y;
    while b > u64::MAX as u128 {
        let rest = a % b;
        a = b;
        b = rest;
    }
    if b == 0 {
        return a;
    }
    narrow_gcd(b as u64, (a % b) as u64) as u128
}

// Division is far quicker in 64 bits.
fn narrow_gcd(x: u64, y: u64) -> u64
    ensures { IsGcd x y result }
{
    let mut a = x;
    let mut b = y;
    while b != 0 {
        let rest = a % b;
        a = b;
        b = rest;
    }
    a
}

/// The least common multiple of `x` and `y`, or `None` where it is over `limit`, be it within `u128` or not.
pub fn lcm_within(x: u128, y: u128, limit: u128) -> Option<u128>
    requires first { 0 < x }
    requires second { 0 < y }
    ensures least { IfSome result (IsLcm x y) }
    ensures within { IfSome result (λ m. m ≤ limit) }
    ensures over { IsNone result ↔ ((m : ℕ) → IsLcm x y m → limit < m) }
{
    let multiple = (x / gcd_of_sizes(x, y)).checked_mul(y)?;
    if multiple <= limit {
        Some(multiple)
    } else {
        None
    }
}
