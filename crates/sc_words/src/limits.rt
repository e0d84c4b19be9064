//! How letters and coefficients are bounded.

ghost use Rattle.std.specs.Prelude.{◌≡◌};

/// The generators: their numbers, for `a` to `z`, are below this.
pub const GENERATORS: u8 = 26;

/// The size of a coefficient in a chain text.
pub const MAX_COEFFICIENT: u32 = 1000;

/// The digits of a coefficient in a chain text.
pub const COEFFICIENT_DIGITS: usize = 4;

/// The numbers of the limits.
pub fn numbers()
    ensures generators { GENERATORS ≡ 26 }
    ensures coefficient { MAX_COEFFICIENT ≡ 1000 }
    ensures coefficient_digits { COEFFICIENT_DIGITS ≡ 4 }
{}
