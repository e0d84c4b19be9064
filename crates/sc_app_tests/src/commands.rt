//! The program from bytes to bytes.

use sc_app::{Command, Reading, Status, What, command_of, run, run_to_code};
use sc_chain::Kind;
use sc_fatgraph::FlawKind;
use sc_outside::{MemorySink, MemorySource, StdSink, StdSource};
use sc_prices::{Condition, TableFlaw};
use std::alloc::{AllocError, Global};
use std::test::Fail;

const COMMUTATOR: &[u8] =
    b"scallop surface 1\nwords 1\nword 1 abAB\ncopies 1\nsides 4\nside 0 2 1\nside 1 3 2\nside 2 0 3\nside 3 1 0\nend\n";

const DOUBLE: &[u8] =
    b"scallop surface 1\nwords 1\nword 1 abAB\ncopies 2\nsides 8\nside 0 2 1\nside 1 3 2\nside 2 0 3\nside 3 1 4\nside 0 6 5\nside 1 7 6\nside 2 4 7\nside 3 5 0\nend\n";

const ANNULUS: &[u8] =
    b"scallop surface 1\nwords 2\nword 1 a\nword 1 A\ncopies 1\nsides 2\nside 0 1 0\nside 1 0 1\nend\n";

const EMPTY: &[u8] = b"scallop surface 1\nwords 0\ncopies 1\nsides 0\nend\n";

const LOOSE: &[u8] =
    b"scallop surface 1\nwords 1\nword 1 abAB\ncopies 1\nsides 4\nside 0 0 1\nside 1 3 2\nside 2 0 3\nside 3 1 0\nend\n";

const CERTIFICATE: &[u8] =
    b"scallop certificate 1\nwords 1\nword 1 abAB\nvalue 1/2\ncopies 1\nsides 4\nside 0 2 3\nside 3 3 0\nside 2 0 1\nside 1 1 2\nscale 1\nbase 1\npair 0 2 -5\npair 1 3 -5\nfrom 0 0 -5 -10 -5\nfrom 1 6 0 -4 1\nfrom 2 11 5 0 6\nfrom 3 6 0 -5 0\npivots 1\npivot 2 0 3 2 1\nend\n";

const ANNULUS_CERTIFICATE: &[u8] =
    b"scallop certificate 1\nwords 2\nword 1 a\nword 1 A\nvalue 0/1\ncopies 1\nsides 2\nside 0 1 0\nside 1 0 1\nscale 1\nbase -3\nbase 4\npair 0 1 -3\nfrom 0 0 1\nfrom 1 0 0\npivots 1\npivot 2 0 1\nend\n";

const EMPTY_CERTIFICATE: &[u8] =
    b"scallop certificate 1\nwords 0\nvalue 0/1\ncopies 1\nsides 0\nscale 1\npivots 0\nend\n";

const LOW_ENTRY: &[u8] =
    b"scallop certificate 1\nwords 1\nword 1 abAB\nvalue 1/2\ncopies 1\nsides 4\nside 0 2 3\nside 3 3 0\nside 2 0 1\nside 1 1 2\nscale 1\nbase 1\npair 0 2 -5\npair 1 3 -5\nfrom 0 0 -5 -9 -5\nfrom 1 6 0 -4 1\nfrom 2 11 5 0 6\nfrom 3 6 0 -5 0\npivots 1\npivot 2 0 3 2 1\nend\n";

const UNENDED: &[u8] =
    b"scallop certificate 1\nwords 1\nword 1 abAB\nvalue 1/2\ncopies 1\nsides 4\nside 0 2 3\nside 3 3 0\nside 2 0 1\nside 1 1 2\nscale 1\nbase 1\npair 0 2 -5\npair 1 3 -5\nfrom 0 0 -5 -10 -5\nfrom 1 6 0 -4 1\nfrom 2 11 5 0 6\nfrom 3 6 0 -5 0\npivots 1\npivot 2 0 3 2 1\n";

const LOOSE_CERTIFICATE: &[u8] =
    b"scallop certificate 1\nwords 1\nword 1 abAB\nvalue 1/2\ncopies 1\nsides 4\nside 0 0 3\nside 3 3 0\nside 2 0 1\nside 1 1 2\nscale 1\nbase 1\npair 0 2 -5\npair 1 3 -5\nfrom 0 0 -5 -10 -5\nfrom 1 6 0 -4 1\nfrom 2 11 5 0 6\nfrom 3 6 0 -5 0\npivots 1\npivot 2 0 3 2 1\nend\n";

const SLACK: &[u8] =
    b"scallop certificate 1\nwords 1\nword 1 abAB\nvalue 3/4\ncopies 2\nsides 8\nside 0 2 1\nside 1 3 2\nside 2 0 3\nside 3 1 4\nside 0 6 5\nside 1 7 6\nside 2 4 7\nside 3 5 0\nscale 1\nbase 1\npair 0 2 -5\npair 1 3 -5\nfrom 0 0 -5 -10 -5\nfrom 1 6 0 -4 1\nfrom 2 11 5 0 6\nfrom 3 6 0 -5 0\npivots 1\npivot 2 0 3 2 1\nend\n";

const MISVALUED: &[u8] =
    b"scallop certificate 1\nwords 1\nword 1 abAB\nvalue 1/2\ncopies 2\nsides 8\nside 0 2 1\nside 1 3 2\nside 2 0 3\nside 3 1 4\nside 0 6 5\nside 1 7 6\nside 2 4 7\nside 3 5 0\nscale 1\nbase 1\npair 0 2 -5\npair 1 3 -5\nfrom 0 0 -5 -10 -5\nfrom 1 6 0 -4 1\nfrom 2 11 5 0 6\nfrom 3 6 0 -5 0\npivots 1\npivot 2 0 3 2 1\nend\n";

const DRAWING: &str = "<svg xmlns=\"http://www.w3.org/2000/svg\" viewBox=\"0 0 80 74\">\n\
    <line x1=\"20\" y1=\"50\" x2=\"40\" y2=\"50\" stroke=\"black\" stroke-width=\"4\"/>\n\
    <path d=\"M 20 50 A 10 10 0 0 1 40 50\" fill=\"none\" stroke=\"black\"/>\n\
    <text x=\"20\" y=\"66\" font-size=\"12\">a</text>\n\
    <text x=\"40\" y=\"66\" font-size=\"12\">A</text>\n\
    </svg>\n";

/// The unit ball of two commutators without common letters.
pub(crate) const FAN: &[u8] =
    b"scallop fan 1\nfirst 1\nword 1 abAB\nsecond 1\nword 1 cdCD\ncorners 3\ncorner 0 -1 1/2\n\
    corner 1 0 1/2\ncorner 0 1 1/2\nedges 2\nedge 0\nscale 1\nbase 1\nbase 1\npair 0 2 -9\npair 1 3 -9\n\
    pair 4 6 -9\npair 5 7 -9\nedge 1\nscale 1\nbase 1\nbase 1\npair 0 2 -9\npair 1 3 -9\npair 4 6 -9\n\
    pair 5 7 -9\nend\n";

const FAN_DRAWING: &str =
    "<svg xmlns=\"http://www.w3.org/2000/svg\" viewBox=\"-1000 -1000 2000 2000\">\n\
    <line x1=\"-1000\" y1=\"0\" x2=\"1000\" y2=\"0\" stroke=\"gray\"/>\n\
    <line x1=\"0\" y1=\"-1000\" x2=\"0\" y2=\"1000\" stroke=\"gray\"/>\n\
    <line x1=\"0\" y1=\"900\" x2=\"900\" y2=\"0\" stroke=\"black\" stroke-width=\"4\"/>\n\
    <line x1=\"0\" y1=\"-900\" x2=\"-900\" y2=\"0\" stroke=\"black\" stroke-width=\"4\"/>\n\
    <line x1=\"900\" y1=\"0\" x2=\"0\" y2=\"-900\" stroke=\"black\" stroke-width=\"4\"/>\n\
    <line x1=\"-900\" y1=\"0\" x2=\"0\" y2=\"900\" stroke=\"black\" stroke-width=\"4\"/>\n\
    </svg>\n";

/// How the streams of a call behave: bytes a reading call, reading calls that fail, bytes a writing call, writing calls
/// that fail.
#[derive(Clone, Copy)]
pub(crate) struct Streams<'a> {
    pub read_piece: u8,
    pub read_fails: &'a [u64],
    pub write_piece: u8,
    pub write_fails: &'a [u64],
}

/// The words of a command line.
fn words_of(alloc: Global, line: &str) -> Result<Vec<String>, AllocError> {
    let mut words = Vec::new(alloc);
    for word in line.split_whitespace() {
        words.push(String::from_str(alloc, word)?)?;
    }
    Ok(words)
}

/// The status of a call, what `out` took and what `notes` took.
pub(crate) fn call(
    alloc: Global,
    line: &str,
    input: &[u8],
    streams: &Streams,
) -> Result<(Status, Vec<u8>, Vec<u8>), AllocError> {
    let words = words_of(alloc, line)?;
    let piece = usize::from(streams.read_piece).max(1);
    let mut source = MemorySource::new(
        input.to_vec(alloc)?,
        piece,
        streams.read_fails.to_vec(alloc)?,
    );
    let mut out = MemorySink::new(
        alloc,
        200_000,
        usize::from(streams.write_piece),
        streams.write_fails.to_vec(alloc)?,
    )?;
    let mut notes = MemorySink::new(alloc, 1000, 100, Vec::new(alloc))?;
    let status = run(alloc, &words, &mut source, &mut out, &mut notes);
    Ok((
        status,
        out.taken().to_vec(alloc)?,
        notes.taken().to_vec(alloc)?,
    ))
}

pub(crate) const CALM: Streams<'static> = Streams {
    read_piece: 200,
    read_fails: &[],
    write_piece: 100,
    write_fails: &[],
};

#[test]
fn answers_what_the_commands_say(rt: HostRuntime) -> Result<(), Fail> {
    let rejected = Status::Rejected(Condition::Flaw {
        kind: FlawKind::Mate,
        place: 0,
    });
    let ended = Status::Malformed {
        line: 1,
        kind: Kind::Ended,
    };
    let form = Status::Malformed {
        line: 1,
        kind: Kind::Form,
    };
    let letter = Status::Malformed {
        line: 2,
        kind: Kind::Letter,
    };
    let range = Status::Malformed {
        line: 6,
        kind: Kind::Range,
    };
    let cases = [
        (
            "surface",
            COMMUTATOR,
            Status::Done,
            "vertices 1\nedges 2\neuler -1\nfraction 1/2\n",
            "",
        ),
        (
            "surface",
            DOUBLE,
            Status::Done,
            "vertices 1\nedges 4\neuler -3\nfraction 3/4\n",
            "",
        ),
        (
            "surface",
            ANNULUS,
            Status::Done,
            "vertices 1\nedges 1\neuler 0\nfraction 0/1\n",
            "",
        ),
        (
            "surface",
            EMPTY,
            Status::Done,
            "vertices 0\nedges 0\neuler 0\nfraction 0/1\n",
            "",
        ),
        (
            "surface",
            CERTIFICATE,
            Status::Done,
            "vertices 1\nedges 2\neuler -1\nfraction 1/2\n",
            "",
        ),
        (
            "surface",
            LOW_ENTRY,
            Status::Done,
            "vertices 1\nedges 2\neuler -1\nfraction 1/2\n",
            "",
        ),
        (
            "surface",
            b"scallop fan 1\n".as_slice(),
            form,
            "",
            "scallop: malformed line 1 form\n",
        ),
        (
            "surface",
            LOOSE,
            rejected,
            "rejected mate 0\n",
            "scallop: rejected\n",
        ),
        (
            "shape",
            DOUBLE,
            Status::Done,
            "component 0 sides 8 vertices 1 edges 4 euler -3 boundaries 1\nboundary 0 2\n",
            "",
        ),
        (
            "shape",
            ANNULUS_CERTIFICATE,
            Status::Done,
            "component 0 sides 2 vertices 1 edges 1 euler 0 boundaries 2\nboundary 0 1\nboundary 1 1\n",
            "",
        ),
        ("shape", EMPTY_CERTIFICATE, Status::Done, "", ""),
        (
            "shape",
            LOOSE_CERTIFICATE,
            rejected,
            "rejected mate 0\n",
            "scallop: rejected\n",
        ),
        ("svg", ANNULUS_CERTIFICATE, Status::Done, DRAWING, ""),
        ("svg", FAN, Status::Done, FAN_DRAWING, ""),
        (
            "svg",
            b"scallop fan 1\nfirst 0\nsecond 0\ncorners 3\ncorner 0 -1 1/2\ncorner 0 0 1/2\n".as_slice(),
            range,
            "",
            "scallop: malformed line 6 range\n",
        ),
        (
            "svg",
            b"scallop fan 1".as_slice(),
            ended,
            "",
            "scallop: malformed line 1 ended\n",
        ),
        (
            "svg",
            b"scallop fan 2\n".as_slice(),
            form,
            "",
            "scallop: malformed line 1 form\n",
        ),
        (
            "surface",
            b"".as_slice(),
            ended,
            "",
            "scallop: malformed line 1 ended\n",
        ),
        ("scl", b"aab".as_slice(), Status::Done, "infinite a 2\n", ""),
        (
            "scl",
            b"a\nb\nAB\n-2 b".as_slice(),
            Status::Done,
            "infinite b -2\n",
            "",
        ),
        (
            "scl",
            b"# x\nab?B\n".as_slice(),
            letter,
            "",
            "scallop: malformed line 2 letter\n",
        ),
        (
            "",
            b"".as_slice(),
            Status::Usage,
            "",
            "scallop: usage: surface | shape | check | svg | scl [--pivots N] | ball [--pivots N] | gen SEED K\n",
        ),
        (
            "x",
            b"".as_slice(),
            Status::Usage,
            "",
            "scallop: usage: surface | shape | check | svg | scl [--pivots N] | ball [--pivots N] | gen SEED K\n",
        ),
    ];
    for (word, input, status, out, notes) in cases {
        let (answer, written, noted) = call(rt.alloc(), word, input, &CALM)?;
        assert_eq!(rt; answer, status, "{word}");
        assert_eq!(rt; written.as_slice(), out.as_bytes(), "{word}");
        assert_eq!(rt; noted.as_slice(), notes.as_bytes(), "{word}");
    }
    Ok(())
}

#[test]
fn checks_certificates(rt: HostRuntime) -> Result<(), Fail> {
    let mate = Condition::Flaw {
        kind: FlawKind::Mate,
        place: 0,
    };
    let step = Condition::Table(TableFlaw::Step {
        start: 0,
        from: 3,
        to: 2,
    });
    let form = Status::Malformed {
        line: 1,
        kind: Kind::Form,
    };
    let ended = Status::Malformed {
        line: 21,
        kind: Kind::Ended,
    };
    let cut_off = Status::Malformed {
        line: 1,
        kind: Kind::Ended,
    };
    let cases = [
        (CERTIFICATE, Status::Done, "optimal 1/2\n"),
        (ANNULUS_CERTIFICATE, Status::Done, "optimal 0/1\n"),
        (EMPTY_CERTIFICATE, Status::Done, "optimal 0/1\n"),
        (
            LOOSE_CERTIFICATE,
            Status::Rejected(mate),
            "rejected mate 0\n",
        ),
        (
            MISVALUED,
            Status::Rejected(Condition::Value),
            "rejected value\n",
        ),
        (LOW_ENTRY, Status::Rejected(step), "rejected table 0 3 2\n"),
        (
            SLACK,
            Status::Rejected(Condition::NotTight),
            "rejected tight\n",
        ),
        (UNENDED, ended, ""),
        (b"scallop certificate 1".as_slice(), cut_off, ""),
        (COMMUTATOR, form, ""),
    ];
    for (input, status, out) in cases {
        let (answer, written, _) = call(rt.alloc(), "check", input, &CALM)?;
        assert_eq!(rt; answer, status);
        assert_eq!(rt; written.as_slice(), out.as_bytes());
    }
    Ok(())
}

#[test]
fn bears_streams_that_fail(rt: HostRuntime) -> Result<(), Fail> {
    let bytewise = Streams {
        read_piece: 1,
        ..CALM
    };
    let unread = Streams {
        read_fails: &[0],
        ..CALM
    };
    let broken = Streams {
        write_piece: 10,
        write_fails: &[1],
        ..CALM
    };
    let cases = [
        (
            bytewise,
            Status::Done,
            "vertices 1\nedges 2\neuler -1\nfraction 1/2\n",
            "",
        ),
        (unread, Status::ReadFault, "", "scallop: read fault\n"),
        (
            broken,
            Status::WriteFault,
            "vertices 1",
            "scallop: write fault\n",
        ),
    ];
    for (streams, status, out, notes) in cases {
        let (answer, written, noted) = call(rt.alloc(), "surface", COMMUTATOR, &streams)?;
        assert_eq!(rt; answer, status);
        assert_eq!(rt; written.as_slice(), out.as_bytes());
        assert_eq!(rt; noted.as_slice(), notes.as_bytes());
    }
    Ok(())
}

#[test]
fn refuses_what_is_too_large(rt: HostRuntime) -> Result<(), Fail> {
    let cases = [
        (64, Status::Done),
        (65, Status::Large(What::Positions(65))),
        (65_536, Status::Large(What::Positions(65_536))),
        (65_537, Status::Large(What::Bytes)),
    ];
    for (letters, status) in cases {
        let input = vec![in rt.alloc(); b'a'; letters]?;
        let (answer, _, _) = call(rt.alloc(), "scl", input.as_slice(), &CALM)?;
        assert_eq!(rt; answer, status, "{letters}");
    }
    let mut lines = Vec::new(rt.alloc());
    for _ in 0..33 {
        lines.extend_from_slice(b"a\n")?;
    }
    let (answer, _, noted) = call(rt.alloc(), "scl", lines.as_slice(), &CALM)?;
    assert_eq!(rt; answer, Status::Large(What::Words(33)));
    assert_eq!(rt; noted.as_slice(), b"scallop: large words 33\n".as_slice());
    Ok(())
}

#[test]
fn knows_its_forms_and_codes(rt: HostRuntime) -> Result<(), Fail> {
    let cases = [
        ("", None),
        ("surface", Some(Command::Surface)),
        ("shape", Some(Command::Shape)),
        ("svg", Some(Command::Svg)),
        ("ball", Some(Command::Ball { pivots: 20_000 })),
        ("ball --pivots 1", Some(Command::Ball { pivots: 1 })),
        (
            "ball --pivots 50000",
            Some(Command::Ball { pivots: 50_000 }),
        ),
        ("ball --pivots 50001", None),
        ("ball --pivots 01", None),
        ("ball 1", None),
        ("check", Some(Command::Check)),
        ("scl", Some(Command::Scl { pivots: 20_000 })),
        ("scl --pivots 1", Some(Command::Scl { pivots: 1 })),
        ("scl --pivots 50000", Some(Command::Scl { pivots: 50_000 })),
        ("scl --pivots 50001", None),
        ("scl --pivots 0", None),
        ("scl --pivots -1", None),
        ("scl --pivots 01", None),
        ("scl --pivots +1", None),
        ("scl --pivots 340282366920938463463374607431768211457", None),
        ("scl --pivots x", None),
        ("scl --pivots", None),
        ("scl --pivots 1 1", None),
        ("scl -pivots 1", None),
        (
            "gen 18446744073709551615 8",
            Some(Command::Generate {
                seed: 18_446_744_073_709_551_615,
                letters: 8,
            }),
        ),
        (
            "gen 0 1",
            Some(Command::Generate {
                seed: 0,
                letters: 1,
            }),
        ),
        ("gen 18446744073709551616 8", None),
        ("gen -1 4", None),
        ("gen 05 4", None),
        ("gen 5 0", None),
        ("gen 5 9", None),
        ("gen 5", None),
        ("check --pivots 1", None),
        ("check x", None),
    ];
    for (line, command) in cases {
        assert_eq!(rt; command_of(&words_of(rt.alloc(), line)?), command, "{line}");
    }
    assert_eq!(rt; Command::Scl { pivots: 1 }.reads(), Reading::AtMost(65_536));
    for (status, code) in [
        (Status::Done, 0),
        (Status::ReadFault, 8),
        (Status::Wide, 5),
        (Status::Budget, 6),
        (Status::Sides, 7),
    ] {
        assert_eq!(rt; status.code(), code);
    }
    Ok(())
}

/// The code that a call over std's streams ends with, what `out` took and what `notes` took.
fn code(
    alloc: Global,
    words: Option<Vec<String>>,
    input: &[u8],
) -> Result<(u8, Vec<u8>, Vec<u8>), AllocError> {
    let mut out = Vec::new(alloc);
    let mut notes = Vec::new(alloc);
    let code = run_to_code(
        alloc,
        words,
        &mut StdSource::new(input),
        &mut StdSink::telling(&mut out),
        &mut StdSink::telling(&mut notes),
    );
    Ok((code, out, notes))
}

#[test]
fn ends_with_the_code_of_the_status(rt: HostRuntime) -> Result<(), Fail> {
    let usage =
        b"scallop: usage: surface | shape | check | svg | scl [--pivots N] | ball [--pivots N] | gen SEED K\n".as_slice();
    let report = b"vertices 1\nedges 2\neuler -1\nfraction 1/2\n".as_slice();
    let (ended, written, noted) = code(rt.alloc(), None, COMMUTATOR)?;
    assert_eq!(rt; ended, 10);
    assert!(rt; written.is_empty() && noted.is_empty());
    let (ended, written, noted) = code(rt.alloc(), Some(Vec::new(rt.alloc())), COMMUTATOR)?;
    assert_eq!(rt; ended, 2);
    assert!(rt; written.is_empty());
    assert_eq!(rt; noted.as_slice(), usage);
    let mut words = Vec::new(rt.alloc());
    words.push(String::from_str(rt.alloc(), "surface")?)?;
    let (ended, written, noted) = code(rt.alloc(), Some(words), COMMUTATOR)?;
    assert_eq!(rt; ended, 0);
    assert_eq!(rt; written.as_slice(), report);
    assert!(rt; noted.is_empty());
    Ok(())
}
