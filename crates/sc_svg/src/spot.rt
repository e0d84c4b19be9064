//! The corners of a fan, as they are drawn.

ghost use Rattle.std.specs.Prelude.{pos, unsigned_abs, ◌+◌, ◌<◌, ◌≤◌, ◌≤ℤ◌};
ghost use Rattle.sc_svg.specs.declared.limits.TheConstants.{MAX_DIRECTION, MAX_VALUE};

/// A corner of a fan: its direction and its value `num / den`.
#[derive(Clone, Copy, Debug)]
pub struct Spot {
    /// From 0 to 2^20.
    pub s: i64,
    /// From -2^20 to 2^20, and not 0 where `s` is 0.
    pub t: i64,
    /// From 0 to 2^31 - 1.
    pub num: i64,
    /// From 1 to 2^31 - 1.
    pub den: i64,
    pub ghost to_the_right: { pos 0 ≤ℤ s },
    pub ghost small_s: { unsigned_abs s ≤ MAX_DIRECTION },
    pub ghost small_t: { unsigned_abs t ≤ MAX_DIRECTION },
    pub ghost somewhere: { 0 < unsigned_abs s + unsigned_abs t },
    pub ghost not_negative: { pos 0 ≤ℤ num },
    pub ghost small_num: { unsigned_abs num ≤ MAX_VALUE },
    pub ghost above_zero: { pos 1 ≤ℤ den },
    pub ghost small_den: { unsigned_abs den ≤ MAX_VALUE },
}
