//! Drawings of fans, worked out by hand.

use sc_svg::limits::{MAX_DIRECTION, MAX_VALUE};
use sc_svg::{Spot, draw_fan};
use std::alloc::AllocError;

/// A corner, where its numbers are in their ranges.
fn spot(s: i64, t: i64, num: i64, den: i64) -> Option<Spot> {
    let (right, down) = (s.unsigned_abs(), t.unsigned_abs());
    if s < 0 || right > MAX_DIRECTION || down > MAX_DIRECTION || right + down == 0 {
        return None;
    }
    if num < 0 || num.unsigned_abs() > MAX_VALUE || den < 1 || den.unsigned_abs() > MAX_VALUE {
        return None;
    }
    Some(Spot { s, t, num, den })
}

#[test]
fn drawings_of_fans(rt: HostRuntime) -> Result<(), AllocError> {
    let cases: [(&[(i64, i64, i64, i64)], &[u8]); 6] = [
        // two edges
        (
            &[(0, -1, 1, 2), (1, 0, 1, 2), (0, 1, 1, 2)],
            b"<svg xmlns=\"http://www.w3.org/2000/svg\" viewBox=\"-1000 -1000 2000 2000\">\n<line x1=\"-1000\" y1=\"0\" x2=\"1000\" y2=\"0\" stroke=\"gray\"/>\n<line x1=\"0\" y1=\"-1000\" x2=\"0\" y2=\"1000\" stroke=\"gray\"/>\n<line x1=\"0\" y1=\"900\" x2=\"900\" y2=\"0\" stroke=\"black\" stroke-width=\"4\"/>\n<line x1=\"0\" y1=\"-900\" x2=\"-900\" y2=\"0\" stroke=\"black\" stroke-width=\"4\"/>\n<line x1=\"900\" y1=\"0\" x2=\"0\" y2=\"-900\" stroke=\"black\" stroke-width=\"4\"/>\n<line x1=\"-900\" y1=\"0\" x2=\"0\" y2=\"900\" stroke=\"black\" stroke-width=\"4\"/>\n</svg>\n",
        ),
        // a corner of value 0, out along which both of its edges lead
        (
            &[(0, -1, 1, 2), (1, -1, 0, 1), (1, 0, 1, 2), (0, 1, 1, 2)],
            b"<svg xmlns=\"http://www.w3.org/2000/svg\" viewBox=\"-1000 -1000 2000 2000\">\n<line x1=\"-1000\" y1=\"0\" x2=\"1000\" y2=\"0\" stroke=\"gray\"/>\n<line x1=\"0\" y1=\"-1000\" x2=\"0\" y2=\"1000\" stroke=\"gray\"/>\n<line x1=\"0\" y1=\"900\" x2=\"1800\" y2=\"2700\" stroke=\"black\" stroke-width=\"4\"/>\n<line x1=\"0\" y1=\"-900\" x2=\"-1800\" y2=\"-2700\" stroke=\"black\" stroke-width=\"4\"/>\n<line x1=\"900\" y1=\"0\" x2=\"2700\" y2=\"1800\" stroke=\"black\" stroke-width=\"4\"/>\n<line x1=\"-900\" y1=\"0\" x2=\"-2700\" y2=\"-1800\" stroke=\"black\" stroke-width=\"4\"/>\n<line x1=\"900\" y1=\"0\" x2=\"0\" y2=\"-900\" stroke=\"black\" stroke-width=\"4\"/>\n<line x1=\"-900\" y1=\"0\" x2=\"0\" y2=\"900\" stroke=\"black\" stroke-width=\"4\"/>\n</svg>\n",
        ),
        // two corners of value 0 side by side
        (
            &[(0, -1, 0, 1), (1, 0, 0, 1), (0, 1, 3, 2)],
            b"<svg xmlns=\"http://www.w3.org/2000/svg\" viewBox=\"-1000 -1000 2000 2000\">\n<line x1=\"-1000\" y1=\"0\" x2=\"1000\" y2=\"0\" stroke=\"gray\"/>\n<line x1=\"0\" y1=\"-1000\" x2=\"0\" y2=\"1000\" stroke=\"gray\"/>\n<line x1=\"0\" y1=\"-900\" x2=\"1800\" y2=\"-900\" stroke=\"black\" stroke-width=\"4\"/>\n<line x1=\"0\" y1=\"900\" x2=\"-1800\" y2=\"900\" stroke=\"black\" stroke-width=\"4\"/>\n</svg>\n",
        ),
        // coordinates that are cut toward 0: 900 * 6/7 and 900 * 4/7, and 1800 * 3/7
        (
            &[(0, -1, 1, 1), (3, -2, 7, 2), (7, 3, 0, 1), (0, 1, 1, 1)],
            b"<svg xmlns=\"http://www.w3.org/2000/svg\" viewBox=\"-1000 -1000 2000 2000\">\n<line x1=\"-1000\" y1=\"0\" x2=\"1000\" y2=\"0\" stroke=\"gray\"/>\n<line x1=\"0\" y1=\"-1000\" x2=\"0\" y2=\"1000\" stroke=\"gray\"/>\n<line x1=\"0\" y1=\"900\" x2=\"771\" y2=\"514\" stroke=\"black\" stroke-width=\"4\"/>\n<line x1=\"0\" y1=\"-900\" x2=\"-771\" y2=\"-514\" stroke=\"black\" stroke-width=\"4\"/>\n<line x1=\"771\" y1=\"514\" x2=\"2571\" y2=\"-257\" stroke=\"black\" stroke-width=\"4\"/>\n<line x1=\"-771\" y1=\"-514\" x2=\"-2571\" y2=\"257\" stroke=\"black\" stroke-width=\"4\"/>\n<line x1=\"0\" y1=\"-900\" x2=\"1800\" y2=\"-1671\" stroke=\"black\" stroke-width=\"4\"/>\n<line x1=\"0\" y1=\"900\" x2=\"-1800\" y2=\"1671\" stroke=\"black\" stroke-width=\"4\"/>\n</svg>\n",
        ),
        // no corner has a point
        (
            &[(0, -1, 0, 1), (1, 0, 0, 1), (0, 1, 0, 1)],
            b"<svg xmlns=\"http://www.w3.org/2000/svg\" viewBox=\"-1000 -1000 2000 2000\">\n<line x1=\"-1000\" y1=\"0\" x2=\"1000\" y2=\"0\" stroke=\"gray\"/>\n<line x1=\"0\" y1=\"-1000\" x2=\"0\" y2=\"1000\" stroke=\"gray\"/>\n</svg>\n",
        ),
        // the greatest numbers
        (
            &[
                (0, -1, 2147483647, 1),
                (1048576, -1048575, 1, 2147483647),
                (0, 1, 1, 1),
            ],
            b"<svg xmlns=\"http://www.w3.org/2000/svg\" viewBox=\"-1000 -1000 2000 2000\">\n<line x1=\"-1000\" y1=\"0\" x2=\"1000\" y2=\"0\" stroke=\"gray\"/>\n<line x1=\"0\" y1=\"-1000\" x2=\"0\" y2=\"1000\" stroke=\"gray\"/>\n<line x1=\"0\" y1=\"0\" x2=\"900\" y2=\"899\" stroke=\"black\" stroke-width=\"4\"/>\n<line x1=\"0\" y1=\"0\" x2=\"-900\" y2=\"-899\" stroke=\"black\" stroke-width=\"4\"/>\n<line x1=\"900\" y1=\"899\" x2=\"0\" y2=\"0\" stroke=\"black\" stroke-width=\"4\"/>\n<line x1=\"-900\" y1=\"-899\" x2=\"0\" y2=\"0\" stroke=\"black\" stroke-width=\"4\"/>\n</svg>\n",
        ),
    ];
    for (number, case) in cases.iter().enumerate() {
        let mut corners = Vec::new(rt.alloc());
        for (s, t, num, den) in case.0 {
            corners.push(spot(*s, *t, *num, *den).expect(&rt, "a corner"))?;
        }
        let bytes = draw_fan(rt.alloc(), corners.as_slice())?;
        assert_eq!(rt; bytes.as_slice(), case.1, "case {number}");
    }
    Ok(())
}
