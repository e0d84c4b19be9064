//! The commands `scl` and `gen` from bytes to bytes: certificates that `check` accepts, summaries, and refusals.

use crate::commands::{CALM, Streams, call};
use sc_app::Status;
use std::alloc::{AllocError, Global};
use std::test::Fail;

const COMMUTATOR: &[u8] =
    b"scallop certificate 1\nwords 1\nword 1 abAB\nvalue 1/2\ncopies 1\nsides 4\nside 0 2 3\n\
    side 3 3 0\nside 2 0 1\nside 1 1 2\nscale 1\nbase 1\npair 0 2 -5\npair 1 3 -5\nfrom 0 0 -5 -10 -5\n\
    from 1 6 0 -4 1\nfrom 2 11 5 0 6\nfrom 3 6 0 -5 0\npivots 1\npivot 2 0 3 2 1\nend\n";

const ANNULUS: &[u8] =
    b"scallop certificate 1\nwords 2\nword 1 a\nword 1 A\nvalue 0/1\ncopies 1\nsides 2\nside 0 1 0\n\
    side 1 0 1\nscale 1\nbase -3\nbase 4\npair 0 1 -3\nfrom 0 0 1\nfrom 1 0 0\npivots 1\npivot 2 0 1\nend\n";

const NOTHING: &[u8] =
    b"scallop certificate 1\nwords 0\nvalue 0/1\ncopies 1\nsides 0\nscale 1\npivots 0\nend\n";

const FIRST_IS_LEFT: &[u8] =
    b"scallop refused budget\nwords 2\nword 1 abAB\nword 1 cdCD\npivots 1\npivot 5 4 7 6 5\n\
    improving 0 3 2 1\nend\n";

const SECOND_IS_LEFT: &[u8] =
    b"scallop refused budget\nwords 2\nword 1 abAB\nword 1 cdCD\npivots 1\npivot 4 0 3 2 1\n\
    improving 4 7 6 5\nend\n";

/// What `gen 5 4` begins with, by the generator's published algorithm.
const DRAWN: &[u8] =
    b"scallop gen 5 4\nwords 2\nword 1 AbbbaBABBBBababA\nword 1 bbabaBBBBAbA\nvalue ";

/// Whether a text has a part.
fn has(text: &[u8], part: &[u8]) -> bool {
    !part.is_empty() && text.windows(part.len()).any(|bytes| bytes == part)
}

#[test]
fn prints_the_worked_certificates(rt: HostRuntime) -> Result<(), Fail> {
    let cases = [
        (b"abAB\n".as_slice(), COMMUTATOR),
        (b"aabABA".as_slice(), COMMUTATOR),
        (b"a\nA\n".as_slice(), ANNULUS),
        (b"".as_slice(), NOTHING),
        (b"aA".as_slice(), NOTHING),
        (b"0 ab".as_slice(), NOTHING),
    ];
    let bytewise = Streams {
        read_piece: 1,
        ..CALM
    };
    for (input, text) in cases {
        let (status, written, noted) = call(rt.alloc(), "scl", input, &bytewise)?;
        assert_eq!(rt; status, Status::Done);
        assert_eq!(rt; written.as_slice(), text);
        assert!(rt; noted.is_empty());
    }
    Ok(())
}

/// What `scl` prints for a chain, and what `check` says of it.
pub(crate) fn solve_and_check(
    alloc: Global,
    line: &str,
    input: &[u8],
) -> Result<(Vec<u8>, Vec<u8>), AllocError> {
    let (_, certificate, _) = call(alloc, line, input, &CALM)?;
    let (_, verdict, _) = call(alloc, "check", certificate.as_slice(), &CALM)?;
    Ok((certificate, verdict))
}

#[test]
fn finds_the_least_values(rt: HostRuntime) -> Result<(), Fail> {
    let cases = [
        ("abABcdCD", "3/2", "copies 1\n", " 0 3 6 5 4 7 2 1\n"),
        ("abAB\ncdCD", "1/1", " 0 3 2 1\n", " 4 7 6 5\n"),
        ("a\nb\nAB", "1/2", " 0 2 1 3\n", "words 3\n"),
        ("abAB\nbaBA", "0/1", "words 2\n", "end\n"),
        ("2 abAB", "1/1", "word 2 abAB\n", "end\n"),
        ("abABabAB", "1/1", "word 1 abABabAB\n", "end\n"),
        ("aa\n2 A", "0/1", " 0 2\n", " 1 2\n"),
        ("-1 abAB", "1/2", "word 1 baBA\n", "end\n"),
        ("baBABAbaBabA", "5/6", "word 1 baBABAbaBabA\n", "end\n"),
        ("abABabABabABabAB", "2/1", "words 1\n", "end\n"),
        (
            "abABabABabABabABabABabABabABabAB",
            "4/1",
            "words 1\n",
            "end\n",
        ),
    ];
    for (input, value, first, second) in cases {
        let (certificate, verdict) = solve_and_check(rt.alloc(), "scl", input.as_bytes())?;
        let expected = format!(in rt.alloc(); "optimal {value}\n")?;
        assert_eq!(rt; verdict.as_slice(), expected.as_bytes(), "{input}");
        assert!(rt; has(certificate.as_slice(), first.as_bytes()), "{input}");
        assert!(rt; has(certificate.as_slice(), second.as_bytes()), "{input}");
    }
    Ok(())
}

#[test]
fn solves_many_words(rt: HostRuntime) -> Result<(), Fail> {
    let cases = [
        ("a\nA\n", 16, "optimal 0/1\n"),
        ("abAB\n", 8, "optimal 4/1\n"),
    ];
    for (lines, times, expected) in cases {
        let mut input = Vec::new(rt.alloc());
        for _ in 0..times {
            input.extend_from_slice(lines.as_bytes())?;
        }
        let (_, verdict) = solve_and_check(rt.alloc(), "scl", input.as_slice())?;
        assert_eq!(rt; verdict.as_slice(), expected.as_bytes(), "{lines}");
    }
    Ok(())
}

#[test]
fn stops_when_the_pivots_are_used_up(rt: HostRuntime) -> Result<(), Fail> {
    let input = b"abAB\ncdCD".as_slice();
    let (status, written, noted) = call(rt.alloc(), "scl --pivots 1", input, &CALM)?;
    assert_eq!(rt; status, Status::Budget);
    assert!(rt; written.as_slice() == FIRST_IS_LEFT || written.as_slice() == SECOND_IS_LEFT);
    assert_eq!(rt; noted.as_slice(), b"scallop: budget\n".as_slice());
    let (_, verdict) = solve_and_check(rt.alloc(), "scl --pivots 2", input)?;
    assert_eq!(rt; verdict.as_slice(), b"optimal 1/1\n".as_slice());
    Ok(())
}

#[test]
fn tells_streams_that_fail(rt: HostRuntime) -> Result<(), Fail> {
    let unread = Streams {
        read_fails: &[0],
        ..CALM
    };
    let broken = Streams {
        write_piece: 10,
        write_fails: &[1],
        ..CALM
    };
    let (status, written, noted) = call(rt.alloc(), "scl", b"abAB", &unread)?;
    assert_eq!(rt; status, Status::ReadFault);
    assert!(rt; written.is_empty());
    assert_eq!(rt; noted.as_slice(), b"scallop: read fault\n".as_slice());
    let (status, written, noted) = call(rt.alloc(), "scl", b"abAB", &broken)?;
    assert_eq!(rt; status, Status::WriteFault);
    assert_eq!(rt; written.as_slice(), b"scallop ce".as_slice());
    assert_eq!(rt; noted.as_slice(), b"scallop: write fault\n".as_slice());

    // `gen` doesn't ask its source, and draws the same each time.
    let (status, first, noted) = call(rt.alloc(), "gen 5 4", b"", &unread)?;
    assert_eq!(rt; status, Status::Done);
    assert!(rt; noted.is_empty());
    assert!(rt; first.starts_with(DRAWN));
    assert!(rt; has(first.as_slice(), b"\nlength 28\ncolumns "));
    let (_, second, _) = call(rt.alloc(), "gen 5 4", b"abAB", &CALM)?;
    assert_eq!(rt; first.as_slice(), second.as_slice());
    Ok(())
}
