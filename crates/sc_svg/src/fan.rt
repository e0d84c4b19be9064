//! The drawing of a fan.

ghost use Rattle.std.specs.Prelude.{◌≡◌, ◌*◌, ◌<◌, ◌++◌, true, OnOk, IfOk, unsigned_abs};
ghost use Rattle.sc_svg.specs.Fans.{has_point, point_of, arrow_of, line_of, both_lines, ray_lines, edge_lines, edges_of, IsGreatest, IsFanDrawing};
ghost use Rattle.sc_svg.specs.inside.Extents.{IsBounded};
ghost use Rattle.sc_svg.specs.Points.{IsWithin};

use crate::extent::{Extent, breadth_of, greatest_of, is_pointed};
use crate::pieces::{Piece, print_pieces};
use crate::point::{Point, cut, moved, opposite};
use crate::spot::Spot;
use std::alloc::{AllocError, Global};

/// How far from the origin the point of the greatest size is drawn.
const REACH: u128 = 900;

/// How far an edge without an end is drawn.
const ARROW: u128 = 1800;

/// The drawn point of a corner that has one, where this is the greatest size.
fn drawn_point(corner: Spot, greatest: Extent) -> Point
    requires pointed { has_point corner ≡ true }
    requires bounded { IsBounded greatest }
    requires some { 0 < greatest.over }
    ensures value { result ≡ point_of greatest corner }
    ensures small { IsWithin 100 result }
{
    let factor = REACH * u128::from(corner.den.unsigned_abs()) * greatest.under;
    let divisor = u128::from(corner.num.unsigned_abs()) * greatest.over;
    Point {
        x: cut(corner.s, factor, divisor),
        y: -cut(corner.t, factor, divisor),
    }
}

/// The way along the direction of a corner, out of the drawing.
fn arrow(corner: Spot) -> Point
    ensures value { result ≡ arrow_of corner }
    ensures small { IsWithin 100 result }
{
    let divisor = u128::from(breadth_of(corner));
    Point {
        x: cut(corner.s, ARROW, divisor),
        y: -cut(corner.t, ARROW, divisor),
    }
}

/// Appends the line between two points.
fn print_line(from: Point, to: Point, out: &mut Vec<u8>) -> Result<(), AllocError>
    ensures { OnOk result (out.new.items ≡ out.old.items ++ line_of from to) }
{
    let pieces = [
        Piece::Text(b"<line x1=\""),
        Piece::Signed(from.x),
        Piece::Text(b"\" y1=\""),
        Piece::Signed(from.y),
        Piece::Text(b"\" x2=\""),
        Piece::Signed(to.x),
        Piece::Text(b"\" y2=\""),
        Piece::Signed(to.y),
        Piece::Text(b"\" stroke=\"black\" stroke-width=\"4\"/>\n"),
    ];
    print_pieces(&pieces, out)
}

/// Appends the line between two points, and the same on the other side of the origin.
fn print_both(from: Point, to: Point, out: &mut Vec<u8>) -> Result<(), AllocError>
    requires from { IsWithin 101 from }
    requires to { IsWithin 101 to }
    ensures { OnOk result (out.new.items ≡ out.old.items ++ both_lines from to) }
{
    print_line(from, to, out)?;
    print_line(opposite(from), opposite(to), out)
}

/// Appends the edge from the point of a corner out along the direction of another.
fn print_ray(
    corner: Spot,
    other: Spot,
    greatest: Extent,
    out: &mut Vec<u8>,
) -> Result<(), AllocError>
    requires pointed { has_point corner ≡ true }
    requires bounded { IsBounded greatest }
    requires some { 0 < greatest.over }
    ensures { OnOk result (out.new.items ≡ out.old.items ++ ray_lines greatest corner other) }
{
    let start = drawn_point(corner, greatest);
    print_both(start, moved(start, arrow(other)), out)
}

/// Appends the edge between two neighbouring corners.
fn print_edge(from: Spot, to: Spot, greatest: Extent, out: &mut Vec<u8>) -> Result<(), AllocError>
    requires bounded { IsBounded greatest }
    requires some_from { has_point from ≡ true → 0 < greatest.over }
    requires some_to { has_point to ≡ true → 0 < greatest.over }
    ensures { OnOk result (out.new.items ≡ out.old.items ++ edge_lines greatest from to) }
{
    match (is_pointed(from), is_pointed(to)) {
        (true, true) => {
            let start = drawn_point(from, greatest);
            print_both(start, drawn_point(to, greatest), out)
        }
        (true, false) => print_ray(from, to, greatest, out),
        (false, true) => print_ray(to, from, greatest, out),
        (false, false) => Ok(()),
    }
}

/// Appends the edges of the corners, each to the next.
fn print_edges(corners: &[Spot], greatest: Extent, out: &mut Vec<u8>) -> Result<(), AllocError>
    requires bounded { IsBounded greatest }
    requires greatest { IsGreatest corners.now greatest }
    ensures { OnOk result (out.new.items ≡ out.old.items ++ edges_of greatest corners.now) }
{
    let [first, rest @ ..] = corners else {
        return Ok(());
    };
    let mut from = *first;
    for to in rest {
        print_edge(from, *to, greatest, out)?;
        from = *to;
    }
    Ok(())
}

/// The drawing of the corners of a fan: the lines between neighbouring ones in the unit ball, and the same on the
/// other side of the origin. A corner has the value of its direction, and its point is where the ball ends there;
/// where the value is 0 the ball has no end, and an edge leads out of the drawing.
pub fn draw_fan(alloc: Global, corners: &[Spot]) -> Result<Vec<u8>, AllocError>
    ensures { IfOk result (λ bytes. IsFanDrawing corners.now bytes.items) }
{
    let greatest = greatest_of(corners);
    let mut out = Vec::new(alloc);
    out.extend_from_slice(
        b"<svg xmlns=\"http://www.w3.org/2000/svg\" viewBox=\"-1000 -1000 2000 2000\">\n<line x1=\"-1000\" y1=\"0\" x2=\"1000\" y2=\"0\" stroke=\"gray\"/>\n<line x1=\"0\" y1=\"-1000\" x2=\"0\" y2=\"1000\" stroke=\"gray\"/>\n",
    )?;
    print_edges(corners, greatest, &mut out)?;
    out.extend_from_slice(b"</svg>\n")?;
    Ok(out)
}
