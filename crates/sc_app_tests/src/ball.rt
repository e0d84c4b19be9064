//! The command `ball` from bytes to bytes.

use crate::commands::{CALM, FAN, call};
use crate::scl::solve_and_check;
use sc_app::{Status, What};
use sc_chain::Kind;
use std::test::Fail;

/// Up to the first list, the fan of the commutator taken twice.
const TWICE: &[u8] =
    b"scallop fan 1\nfirst 1\nword 1 abAB\nsecond 1\nword 1 abAB\ncorners 4\ncorner 0 -1 1/2\n\
    corner 1 -1 0/1\ncorner 1 0 1/2\ncorner 0 1 1/2\nedges 3\nedge 0\nscale ";

/// The same for the commutator and its pair of pants.
const PANTS: &[u8] =
    b"scallop fan 1\nfirst 1\nword 1 abAB\nsecond 3\nword 1 ab\nword 1 A\nword 1 B\ncorners 7\n\
    corner 0 -1 1/2\ncorner 1 -2 1/1\ncorner 2 -1 1/1\ncorner 1 0 1/2\ncorner 2 1 1/1\n\
    corner 1 2 1/1\ncorner 0 1 1/2\nedges 6\nedge 0\nscale ";

/// Each corner takes one of the chains a thousand times.
const HEAVY: &[u8] =
    b"scallop fan 1\nfirst 1\nword 1000 abAB\nsecond 1\nword 1000 cdCD\ncorners 3\n\
    corner 0 -1 500/1\ncorner 1 0 500/1\ncorner 0 1 500/1\nedges 2\nedge 0\nscale ";

/// Where the second chain is empty, the value is that of the first.
const ONE_SIDED: &[u8] =
    b"scallop fan 1\nfirst 1\nword 1 abAB\nsecond 0\ncorners 3\ncorner 0 -1 0/1\ncorner 1 0 1/2\n\
    corner 0 1 0/1\nedges 2\nedge 0\nscale ";

const EMPTY: &[u8] =
    b"scallop fan 1\nfirst 0\nsecond 0\ncorners 3\ncorner 0 -1 0/1\ncorner 1 0 0/1\n\
    corner 0 1 0/1\nedges 2\nedge 0\nscale 1\nedge 1\nscale 1\nend\n";

/// The first end of the lower quadrant, where the first chain has the weight 0 and the second is inverted, takes two
/// pivots, in either order.
const FIRST_IS_LEFT: &[u8] =
    b"scallop refused budget\nsearch 0\ndirection 0 -1\nwords 2\nword 0 abAB\nword 1 dcDC\npivots 1\n\
    pivot 5 4 7 6 5\nimproving 0 3 2 1\nend\n";

const SECOND_IS_LEFT: &[u8] =
    b"scallop refused budget\nsearch 0\ndirection 0 -1\nwords 2\nword 0 abAB\nword 1 dcDC\npivots 1\n\
    pivot 4 0 3 2 1\nimproving 4 7 6 5\nend\n";

#[test]
fn fans_are_printed(rt: HostRuntime) -> Result<(), Fail> {
    let alloc = rt.alloc();
    let (status, fan, noted) = call(alloc, "ball", b"abAB\n/\ncdCD\n", &CALM)?;
    assert_eq!(rt; status, Status::Done);
    assert_eq!(rt; fan.as_slice(), FAN);
    assert!(rt; noted.is_empty());
    let cases = [
        ("abAB\n/\nabAB", TWICE),
        ("abAB\n/\nab\nA\nB\n", PANTS),
        ("1000 abAB\n/\n1000 cdCD\n", HEAVY),
        ("aabABA\n\t/ \r\n", ONE_SIDED),
        ("/", EMPTY),
        ("aA\n/\n0 ab\n", EMPTY),
    ];
    for (input, front) in cases {
        let (_, fan, _) = call(alloc, "ball --pivots 20", input.as_bytes(), &CALM)?;
        assert!(rt; fan.as_slice().starts_with(front), "{input}");
    }
    Ok(())
}

/// The values at the corners of the commutator and its pair of pants, and on each edge at the sum of its two corners
/// and at that of one and twice the other: there a value is the sum of theirs.
#[test]
fn values_are_those_of_scl(rt: HostRuntime) -> Result<(), Fail> {
    let cases: [(i8, i8, &str); 19] = [
        (0, -1, "1/2"),
        (1, -3, "3/2"),
        (1, -4, "2/1"),
        (1, -2, "1/1"),
        (3, -3, "2/1"),
        (4, -5, "3/1"),
        (2, -1, "1/1"),
        (3, -1, "3/2"),
        (4, -1, "2/1"),
        (1, 0, "1/2"),
        (3, 1, "3/2"),
        (4, 1, "2/1"),
        (2, 1, "1/1"),
        (3, 3, "2/1"),
        (4, 5, "3/1"),
        (1, 2, "1/1"),
        (1, 3, "3/2"),
        (1, 4, "2/1"),
        (0, 1, "1/2"),
    ];
    for (s, t, value) in cases {
        let input = format!(in rt.alloc(); "{s} abAB\n{t} ab\n{t} A\n{t} B\n")?;
        let (_, verdict) = solve_and_check(rt.alloc(), "scl", input.as_bytes())?;
        let expected = format!(in rt.alloc(); "optimal {value}\n")?;
        assert_eq!(rt; verdict.as_slice(), expected.as_bytes(), "{input}");
    }
    Ok(())
}

#[test]
fn tells_why_there_is_no_fan(rt: HostRuntime) -> Result<(), Fail> {
    let missing = Status::Malformed {
        line: 3,
        kind: Kind::Separator,
    };
    let nothing = Status::Malformed {
        line: 1,
        kind: Kind::Separator,
    };
    let letter = Status::Malformed {
        line: 2,
        kind: Kind::Letter,
    };
    let cases = [
        ("aab\n/\nabAB", Status::Done, "infinite first a 2\n"),
        ("aab\n/\nc", Status::Done, "infinite first a 2\n"),
        ("abAB\n/\n-2 abb", Status::Done, "infinite second a -2\n"),
        ("abAB\ncdCD\n", missing, ""),
        ("a\n/\n/\nb", missing, ""),
        ("", nothing, ""),
        ("a\nb?\n/\n/\n", letter, ""),
        ("a\n/ b\n", letter, ""),
    ];
    for (input, status, out) in cases {
        let (answer, written, _) = call(rt.alloc(), "ball", input.as_bytes(), &CALM)?;
        assert_eq!(rt; answer, status, "{input}");
        assert_eq!(rt; written.as_slice(), out.as_bytes(), "{input}");
    }
    Ok(())
}

#[test]
fn limits_hold_for_both_chains_together(rt: HostRuntime) -> Result<(), Fail> {
    let words =
        "a\na\na\na\na\na\na\na\na\na\na\na\na\na\na\na\na\n/\nA\nA\nA\nA\nA\nA\nA\nA\nA\nA\nA\nA\nA\nA\nA\nA\n";
    let letters = "aaaaaaaaaaaaaaaaaaaaaaaaaaaaaaaaa\n/\nbbbbbbbbbbbbbbbbbbbbbbbbbbbbbbbb";
    let cases = [
        (words, What::Words(33), "scallop: large words 33\n"),
        (
            letters,
            What::Positions(65),
            "scallop: large positions 65\n",
        ),
    ];
    for (input, what, note) in cases {
        let (status, written, noted) = call(rt.alloc(), "ball", input.as_bytes(), &CALM)?;
        assert_eq!(rt; status, Status::Large(what));
        assert!(rt; written.is_empty());
        assert_eq!(rt; noted.as_slice(), note.as_bytes());
    }
    Ok(())
}

#[test]
fn shows_the_search_when_the_pivots_are_used_up(rt: HostRuntime) -> Result<(), Fail> {
    let (status, written, noted) = call(rt.alloc(), "ball --pivots 1", b"abAB\n/\ncdCD", &CALM)?;
    assert_eq!(rt; status, Status::Budget);
    assert_eq!(rt; noted.as_slice(), b"scallop: budget\n".as_slice());
    assert!(rt; written.as_slice() == FIRST_IS_LEFT || written.as_slice() == SECOND_IS_LEFT);
    Ok(())
}
