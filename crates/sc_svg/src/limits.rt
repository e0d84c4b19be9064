//! The ranges of the corners that are drawn.

ghost use Rattle.std.specs.Prelude.{◌≡◌};

/// The size of a direction's numbers.
pub const MAX_DIRECTION: u64 = 1_048_576;

/// The numerator and the denominator of a corner's value.
pub const MAX_VALUE: u64 = 2_147_483_647;

/// The numbers of the limits.
pub fn numbers()
    ensures direction { MAX_DIRECTION ≡ 1048576 }
    ensures value { MAX_VALUE ≡ 2147483647 }
{}
