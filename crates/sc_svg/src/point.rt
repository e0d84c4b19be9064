//! Points of a drawing.

ghost use Rattle.std.specs.Prelude.{◌≡◌, ℕ, ◌*◌, ◌<◌, ◌^◌, unsigned_abs};
ghost use Rattle.sc_svg.specs.Points as points;
ghost use Rattle.sc_svg.specs.Points.{IsWithin};

/// A point, or a way between two points: to the right and down.
#[derive(Clone, Copy, Debug)]
pub(crate) struct Point {
    pub(crate) x: i128,
    pub(crate) y: i128,
}

/// `z * factor / divisor`, cut toward 0.
pub(crate) fn cut(z: i64, factor: u128, divisor: u128) -> i128
    requires small { unsigned_abs z * factor < 2 ^ 100 }
    requires divisor { 0 < divisor }
    ensures value { result ≡ points.cut z factor divisor }
    ensures small { unsigned_abs result < 2 ^ 100 }
{
    let size = (u128::from(z.unsigned_abs()) * factor / divisor) as i128;
    if z < 0 { -size } else { size }
}

/// The point on the other side of the origin.
pub(crate) fn opposite(point: Point) -> Point
    requires { IsWithin 101 point }
    ensures { result ≡ points.opposite point }
{
    Point {
        x: -point.x,
        y: -point.y,
    }
}

/// The point to which a way leads from another.
pub(crate) fn moved(point: Point, way: Point) -> Point
    requires point { IsWithin 100 point }
    requires way { IsWithin 100 way }
    ensures value { result ≡ points.moved point way }
    ensures small { IsWithin 101 result }
{
    Point {
        x: point.x + way.x,
        y: point.y + way.y,
    }
}
