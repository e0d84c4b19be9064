//! Lines of corners, a fan that is read and printed, and what is wrong with other texts.

use sc_fan::{Direction, Fan, corner_line, print_corner_line};
use sc_line::{Kind, TextFault};
use std::alloc::AllocError;
use std::test::Fail;

#[test]
fn lines_of_corners(rt: HostRuntime) -> Result<(), AllocError> {
    let cases: [(&[u8], Option<Kind>); 16] = [
        (b"corner 0 -1 1/2", None),
        (b"corner 1 0 0/1", None),
        (b"corner 1048576 -1048576 2147483647/2147483646", None),
        (b"corner 0 0 1/2", Some(Kind::Range)),
        (b"corner -1 0 1/2", Some(Kind::Range)),
        (b"corner 1 -1048577 1/2", Some(Kind::Range)),
        (b"corner 1 0 2/4", Some(Kind::Range)),
        (b"corner 1 0 1/0", Some(Kind::Range)),
        (b"corner 1 0 1/2147483648", Some(Kind::Range)),
        (b"corner 1 0 -1/2", Some(Kind::Range)),
        (b"corner 0 0 x/2", Some(Kind::Form)),
        (b"corner 1 0", Some(Kind::Form)),
        (b"corner 1 0 1", Some(Kind::Form)),
        (b"corner 1 0 1/2 3", Some(Kind::Form)),
        (b"corner +1 0 1/2", Some(Kind::Form)),
        (b"corner 1 -0 1/2", Some(Kind::Form)),
    ];
    for (number, case) in cases.iter().enumerate() {
        let mut printed = Vec::new(rt.alloc());
        match corner_line(case.0) {
            Ok(corner) => {
                assert!(rt; case.1.is_none(), "case {number}");
                print_corner_line(&corner, &mut printed)?;
                assert!(rt; printed.as_slice().starts_with(case.0), "case {number}");
                assert!(rt; printed.as_slice().ends_with(b"\n"), "case {number}");
            }
            Err(kind) => assert!(rt; case.1 == Some(kind), "case {number}"),
        }
    }
    Ok(())
}

const COMMUTATORS: &[u8] =
    b"scallop fan 1\nfirst 1\nword 1 abAB\nsecond 1\nword 1 cdCD\ncorners 3\ncorner 0 -1 1/2\ncorner 1 0 1/2\ncorner 0 1 1/2\nedges 2\nedge 0\nscale 1\nbase 1\nbase 1\npair 0 2 -9\npair 1 3 -9\npair 4 6 -9\npair 5 7 -9\nedge 1\nscale 1\nbase 1\nbase 1\npair 0 2 -9\npair 1 3 -9\npair 4 6 -9\npair 5 7 -9\nend\n";

#[test]
fn the_fan_of_two_commutators_is_read_and_printed(rt: HostRuntime) -> Result<(), Fail> {
    let fan = Fan::read(rt.alloc(), COMMUTATORS)?;
    assert_eq!(rt; fan.first.positions(), 4);
    assert_eq!(rt; fan.second.positions(), 4);
    assert_eq!(rt; fan.corners.len(), 3);
    assert_eq!(rt; fan.edges.len(), 2);
    for edge in &fan.edges {
        assert_eq!(rt; edge.from_value.num(), 1);
        assert_eq!(rt; edge.to_value.den(), 2);
        assert_eq!(rt; edge.list.pair(), [-9, -9, -9, -9].as_slice());
    }
    if let Some(edge) = fan.edges.first() {
        assert_eq!(rt; edge.from, Direction { s: 0, t: -1 });
        assert_eq!(rt; edge.to, Direction { s: 1, t: 0 });
    }
    let mut printed = Vec::new(rt.alloc());
    fan.print(&mut printed)?;
    assert_eq!(rt; printed.as_slice(), COMMUTATORS);
    Ok(())
}

fn fault_of(rt: &HostRuntime, text: &[u8]) -> Option<(u32, Kind)> {
    match Fan::read(rt.alloc(), &text[..text.len().min(4096)]) {
        Err(TextFault::Malformed { line, kind }) => Some((line, kind)),
        _ => None,
    }
}

// The first so many lines of the text, and another line behind them.
fn with_line(rt: &HostRuntime, lines: u8, line: &[u8]) -> Result<Vec<u8>, AllocError> {
    let mut text = Vec::new(rt.alloc());
    let mut left = lines;
    for byte in COMMUTATORS {
        if left == 0 {
            break;
        }
        if *byte == b'\n' {
            left -= 1;
        }
        text.push(*byte)?;
    }
    text.extend_from_slice(line)?;
    text.push(b'\n')?;
    Ok(text)
}

#[test]
fn faults_of_lines(rt: HostRuntime) -> Result<(), Fail> {
    let cases: [(u8, &[u8], Kind); 18] = [
        (0, b"scallop surface 1", Kind::Form),
        (1, b"first 33", Kind::Range),
        (2, b"word 1 aA", Kind::NotReduced),
        (3, b"second 32", Kind::Range),
        (
            4,
            b"word 1 cccccccccccccccccccccccccccccccccccccccccccccccccccccccccccccc",
            Kind::Range,
        ),
        (5, b"corners 2", Kind::Range),
        (5, b"corners 9223372036854775808", Kind::Range),
        (5, b"corners 03", Kind::Form),
        (6, b"corner 0 0 1/2", Kind::Range),
        (9, b"edges 3", Kind::Range),
        (10, b"edge 1", Kind::Form),
        (11, b"scale 0", Kind::Range),
        (13, b"pair 0 2 -9", Kind::Form),
        (14, b"pair 0 3 -9", Kind::Form),
        (18, b"edge 0", Kind::Form),
        (18, b"end", Kind::Form),
        (26, b"end 1", Kind::Form),
        (27, b"end", Kind::Rest),
    ];
    for (lines, line, kind) in &cases {
        let text = with_line(&rt, *lines, line)?;
        assert_eq!(rt;
            fault_of(&rt, text.as_slice()),
            Some((u32::from(*lines) + 1, *kind))
        );
    }
    let text = with_line(&rt, 5, b"corners 9223372036854775807")?;
    assert_eq!(rt; fault_of(&rt, text.as_slice()), Some((7, Kind::Ended)));
    Ok(())
}
