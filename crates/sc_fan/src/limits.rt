//! The ranges of the numbers in a fan text.

ghost use Rattle.std.specs.Prelude.{◌≡◌, pos};

/// The size of a direction's numbers.
pub const MAX_DIRECTION: i128 = 1_048_576;

/// The numerator and the denominator of a corner's value.
pub const MAX_VALUE: u32 = 2_147_483_647;

/// The corners of a fan, of which there are at least `MIN_CORNERS`.
pub const MAX_CORNERS: u64 = 9_223_372_036_854_775_807;

/// The least number of corners.
pub const MIN_CORNERS: u64 = 3;

/// The numbers of the limits.
pub fn numbers()
    ensures direction { MAX_DIRECTION ≡ pos 1048576 }
    ensures value { MAX_VALUE ≡ 2147483647 }
    ensures corners { MAX_CORNERS ≡ 9223372036854775807 }
    ensures few_corners { MIN_CORNERS ≡ 3 }
{}
