//! The order of quotients whose cross products may pass 128 bits.
ghost use Rattle.std.specs.Prelude.{◌≡◌, ◌*◌, ◌<◌, pos, ◌*ℤ◌, ◌<ℤ◌};
ghost use Rattle.std.specs.Ordering.{nat_cmp, int_cmp};

use std::cmp::Ordering;

/// The order of `x / a` and `y / b`. No product is made.
pub fn compare_ratios(x: i128, a: i128, y: i128, b: i128) -> Ordering
    requires first { pos 0 <ℤ a }
    requires second { pos 0 <ℤ b }
    ensures { result ≡ int_cmp (x *ℤ b) (y *ℤ a) }
{
    let (x_size, y_size) = (x.unsigned_abs(), y.unsigned_abs());
    let (a_size, b_size) = (a.unsigned_abs(), b.unsigned_abs());
    match (x < 0, y < 0) {
        (false, false) => compare_quotients(x_size, a_size, y_size, b_size),
        (true, true) => compare_quotients(y_size, b_size, x_size, a_size),
        (true, false) => Ordering::Less,
        (false, true) => Ordering::Greater,
    }
}

/// The order of `a / b` and `c / e`, by continued division: whole parts first, and then what is left over, turned
/// upside down.
fn compare_quotients(mut a: u128, mut b: u128, mut c: u128, mut e: u128) -> Ordering
    requires first { 0 < b }
    requires second { 0 < e }
    ensures { result ≡ nat_cmp (a * e) (c * b) }
{
    'parts: loop {
        let (own, other) = (a / b, c / e);
        if own != other {
            return own.cmp(&other);
        }
        let (own_rest, other_rest) = (a % b, c % e);
        if own_rest == 0 || other_rest == 0 {
            return own_rest.cmp(&other_rest);
        }
        // own_rest / b against other_rest / e is as e / other_rest against b / own_rest
        (a, b, c, e) = (e, other_rest, b, own_rest);
    }
}
