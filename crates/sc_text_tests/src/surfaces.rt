//! Texts and lines that the formats give, and what is wrong with others.

use sc_chain::{Kind, TextFault};
use sc_text::read_surface;
use std::test::Fail;

const TEXT_A: &[u8] =
    b"scallop surface 1\nwords 1\nword 1 abAB\ncopies 1\nsides 4\nside 0 2 1\nside 1 3 2\nside 2 0 3\nside 3 1 0\nend\n";

#[test]
fn text_a_is_read(rt: HostRuntime) -> Result<(), Fail> {
    let surface = read_surface(rt.alloc(), TEXT_A)?;
    assert_eq!(rt; surface.chain.words(), 1);
    assert_eq!(rt; surface.n, 1);
    assert_eq!(rt; surface.sides.len(), 4);
    Ok(())
}

/// The line and the kind of the fault of a text.
fn fault_of(rt: &HostRuntime, text: &[u8]) -> Option<(u32, Kind)> {
    match read_surface(rt.alloc(), text) {
        Err(TextFault::Malformed { line, kind }) => Some((line, kind)),
        _ => None,
    }
}

#[test]
fn a_text_that_is_cut_off_is_ended(rt: HostRuntime) {
    let mut line = 1u32;
    for (cut, byte) in TEXT_A.iter().enumerate() {
        assert_eq!(rt; fault_of(&rt, &TEXT_A[..cut]), Some((line, Kind::Ended)));
        if *byte == b'\n' {
            line = line.saturating_add(1);
        }
    }
}

/// Text A with other bytes for one of its lines, counted from 1.
fn with_line(rt: &HostRuntime, number: usize, line: &[u8]) -> Result<Vec<u8>, Fail> {
    let mut text = Vec::new(rt.alloc());
    for (place, old) in TEXT_A.split(|b| *b == b'\n').take(10).enumerate() {
        text.extend_from_slice(if place + 1 == number { line } else { old })?;
        text.push(b'\n')?;
    }
    Ok(text)
}

/// For each line of text A what isn't that line: a field left out, one too many, two spaces, a tab, a leading zero, a
/// plus sign, `-0`, a carriage return.
const OTHER_FORMS: [(u8, &[u8]); 10] = [
    (
        1,
        b"scallop surface|scallop surface 1 1|scallop  surface 1|scallop\tsurface 1|scallop surface 01|scallop surface +1|scallop surface -0|scallop surface 1\r|scallop certificate 1",
    ),
    (
        2,
        b"words|words 1 1|words  1|words\t1|words 01|words +1|words -0|words 1\r",
    ),
    (
        3,
        b"word 1|word 1 abAB 1|word 1  abAB|word\t1 abAB|word 01 abAB|word +1 abAB|word -0 abAB|word 1 abAB\r|word 1 ab?",
    ),
    (
        4,
        b"copies|copies 1 1|copies  1|copies\t1|copies 01|copies +1|copies -0|copies 1\r",
    ),
    (
        5,
        b"sides|sides 4 4|sides  4|sides\t4|sides 04|sides +4|sides -0|sides 4\r",
    ),
    (
        6,
        b"side 0 2|side 0 2 1 0|side 0  2 1|side 0\t2 1|side 00 2 1|side 0 +2 1|side -0 2 1|side 0 2 1\r",
    ),
    (
        7,
        b"side 1 3|side 1 3 2 1|side 1  3 2|side 1\t3 2|side 01 3 2|side 1 +3 2|side -0 3 2|side 1 3 2\r",
    ),
    (
        8,
        b"side 2 0|side 2 0 3 2|side 2  0 3|side 2\t0 3|side 2 00 3|side 2 0 +3|side 2 -0 3|side 2 0 3\r",
    ),
    (
        9,
        b"side 3 1|side 3 1 0 3|side 3  1 0|side 3\t1 0|side 3 1 00|side +3 1 0|side 3 1 -0|side 3 1 0\r",
    ),
    (10, b"|end end|end |\tend|end\r"),
];

#[test]
fn a_line_of_another_form(rt: HostRuntime) -> Result<(), Fail> {
    for (number, lines) in OTHER_FORMS {
        for line in lines.split(|b| *b == b'|') {
            let text = with_line(&rt, usize::from(number), line)?;
            assert_eq!(rt;
                fault_of(&rt, text.as_slice()),
                Some((u32::from(number), Kind::Form))
            );
        }
    }
    Ok(())
}

/// Other faults of a line of text A.
const OTHER_FAULTS: [(u8, &[u8], Kind); 19] = [
    (2, b"words 33", Kind::Range),
    (2, b"words -1", Kind::Range),
    (
        2,
        b"words 99999999999999999999999999999999999999999999999999",
        Kind::Range,
    ),
    (3, b"word 0 abAB", Kind::Range),
    (3, b"word 1001 abAB", Kind::Range),
    (3, b"word 1001 ab?", Kind::Form),
    (
        3,
        b"word 1 ababababababababababababababababababababababababababababababababa",
        Kind::Range,
    ),
    (
        3,
        b"word 1 ababababababababababababababababababababababababababababababababA",
        Kind::Range,
    ),
    (3, b"word 1 aA", Kind::NotReduced),
    (3, b"word 1 abA", Kind::NotReduced),
    (3, b"word 0 aA", Kind::Range),
    (4, b"copies 0", Kind::Range),
    (4, b"copies 1048577", Kind::Range),
    (5, b"sides 1048577", Kind::Range),
    (6, b"side 64 2 1", Kind::Range),
    (6, b"side 0 1048576 1", Kind::Range),
    (6, b"side 0 2 1048576", Kind::Range),
    (6, b"side 64 2 01", Kind::Form),
    (7, b"end", Kind::Form),
];

#[test]
fn other_faults_of_a_line(rt: HostRuntime) -> Result<(), Fail> {
    for (number, line, kind) in OTHER_FAULTS {
        let text = with_line(&rt, usize::from(number), line)?;
        assert_eq!(rt;
            fault_of(&rt, text.as_slice()),
            Some((u32::from(number), kind))
        );
    }
    Ok(())
}

/// Lines of text A with the greatest numbers, and the fault that a later line of text A then is.
const GREATEST: [(u8, &[u8], Option<(u32, Kind)>); 6] = [
    (2, b"words 32", Some((4, Kind::Form))),
    (3, b"word 1000 abAB", None),
    (
        3,
        b"word 1 abababababababababababababababababababababababababababababababab",
        None,
    ),
    (4, b"copies 1048576", None),
    (5, b"sides 1048576", Some((10, Kind::Form))),
    (6, b"side 63 1048575 1048575", None),
];

#[test]
fn the_greatest_numbers_are_read(rt: HostRuntime) -> Result<(), Fail> {
    for (number, line, fault) in GREATEST {
        let text = with_line(&rt, usize::from(number), line)?;
        assert_eq!(rt; fault_of(&rt, text.as_slice()), fault);
    }
    Ok(())
}

#[test]
fn bytes_after_the_end(rt: HostRuntime) -> Result<(), Fail> {
    for rest in [b"x".as_slice(), b"\n", b"\r", b"end\n", b"x\ny"] {
        let mut text = Vec::from_slice(rt.alloc(), TEXT_A)?;
        text.extend_from_slice(rest)?;
        assert_eq!(rt; fault_of(&rt, text.as_slice()), Some((11, Kind::Rest)));
    }
    Ok(())
}
