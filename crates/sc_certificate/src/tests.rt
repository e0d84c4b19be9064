use super::*;
use sc_chain::{Kind, TextFault};
use std::alloc::AllocError;
use std::test::Fail;

const TEXT_C: &[u8] =
    b"scallop certificate 1\nwords 1\nword 1 abAB\nvalue 1/2\ncopies 1\nsides 4\nside 0 2 3\nside 3 3 0\nside 2 0 1\nside 1 1 2\nscale 1\nbase 1\npair 0 2 -5\npair 1 3 -5\nfrom 0 0 -5 -10 -5\nfrom 1 6 0 -4 1\nfrom 2 11 5 0 6\nfrom 3 6 0 -5 0\npivots 1\npivot 2 0 3 2 1\nend\n";

const TEXT_D: &[u8] =
    b"scallop certificate 1\nwords 2\nword 1 a\nword 1 A\nvalue 0/1\ncopies 1\nsides 2\nside 0 1 0\nside 1 0 1\nscale 1\nbase -3\nbase 4\npair 0 1 -3\nfrom 0 0 1\nfrom 1 0 0\npivots 1\npivot 2 0 1\nend\n";

const TEXT_E: &[u8] =
    b"scallop certificate 1\nwords 0\nvalue 0/1\ncopies 1\nsides 0\nscale 1\npivots 0\nend\n";

#[test]
fn text_c_is_read(rt: HostRuntime) -> Result<(), Fail> {
    let certificate = Certificate::read(rt.alloc(), TEXT_C)?;
    assert_eq!(rt; certificate.chain.positions(), 4);
    assert_eq!(rt; certificate.value.num(), 1);
    assert_eq!(rt; certificate.value.den(), 2);
    assert_eq!(rt; certificate.n, 1);
    assert_eq!(rt; certificate.sides.len(), 4);
    assert_eq!(rt; certificate.list.scale(), 1);
    assert_eq!(rt; certificate.list.base(), [1].as_slice());
    assert_eq!(rt; certificate.list.pair(), [-5, -5].as_slice());
    assert_eq!(rt; certificate.tables.len(), 4);
    assert_eq!(rt; certificate.tables.entry(2, 0), Some(11));
    assert_eq!(rt; certificate.tables.entry(0, 4), None);
    assert_eq!(rt; certificate.journal.len(), 1);
    Ok(())
}

#[test]
fn texts_d_and_e_are_read(rt: HostRuntime) -> Result<(), Fail> {
    let certificate = Certificate::read(rt.alloc(), TEXT_D)?;
    assert_eq!(rt; certificate.chain.words(), 2);
    assert_eq!(rt; certificate.value.num(), 0);
    assert_eq!(rt; certificate.list.base(), [-3, 4].as_slice());
    assert_eq!(rt; certificate.tables.len(), 2);
    let certificate = Certificate::read(rt.alloc(), TEXT_E)?;
    assert_eq!(rt; certificate.chain.words(), 0);
    assert_eq!(rt; certificate.sides.len(), 0);
    assert_eq!(rt; certificate.journal.len(), 0);
    Ok(())
}

fn fault_of(rt: &HostRuntime, text: &[u8]) -> Option<(u32, Kind)> {
    match Certificate::read(rt.alloc(), text) {
        Err(TextFault::Malformed { line, kind }) => Some((line, kind)),
        _ => None,
    }
}

// The first so many lines of text C.
fn front(rt: &HostRuntime, lines: u8) -> Result<Vec<u8>, AllocError> {
    let mut text = Vec::new(rt.alloc());
    let mut left = lines;
    for byte in TEXT_C {
        if left == 0 {
            break;
        }
        if *byte == b'\n' {
            left -= 1;
        }
        text.push(*byte)?;
    }
    Ok(text)
}

// The fault of text C up to a line, and another line in its place.
fn fault_after(
    rt: &HostRuntime,
    lines: u8,
    line: &[u8],
) -> Result<Option<(u32, Kind)>, AllocError> {
    let mut text = front(rt, lines)?;
    text.extend_from_slice(line)?;
    text.push(b'\n')?;
    Ok(fault_of(rt, text.as_slice()))
}

#[test]
fn faults_of_lines(rt: HostRuntime) -> Result<(), Fail> {
    let cases: [(u8, &[u8], Kind); 45] = [
        (0, b"scallop surface 1", Kind::Form),
        (1, b"words 33", Kind::Range),
        (2, b"word 1 aA", Kind::NotReduced),
        (3, b"value 2/4", Kind::Range),
        (3, b"value 1/0", Kind::Range),
        (3, b"value 0/2", Kind::Range),
        (3, b"value -1/2", Kind::Range),
        (3, b"value 2097153/1", Kind::Range),
        (3, b"value 1", Kind::Form),
        (3, b"value 1/2/3", Kind::Form),
        (3, b"value +1/2", Kind::Form),
        (3, b"value 1/02", Kind::Form),
        (4, b"copies 0", Kind::Range),
        (5, b"sides 1048577", Kind::Range),
        (6, b"side 0 2", Kind::Form),
        (6, b"side 0 2 1 0", Kind::Form),
        (6, b"side 64 2 1", Kind::Range),
        (10, b"scale 0", Kind::Range),
        (10, b"scale 1237940039285380274899124224", Kind::Range),
        (10, b"scale -0", Kind::Form),
        (11, b"base", Kind::Form),
        (11, b"base 1 1", Kind::Form),
        (11, b"base -1237940039285380274899124224", Kind::Range),
        (12, b"pair 0 2", Kind::Form),
        (12, b"pair 0 3 -5", Kind::Form),
        (12, b"pair 00 2 -5", Kind::Form),
        (12, b"pair 0 2 1237940039285380274899124224", Kind::Range),
        (14, b"from 1 0 - - -", Kind::Form),
        (14, b"from 0 0 - -", Kind::Form),
        (14, b"from 0 0 - - - -", Kind::Form),
        (14, b"from 0 0 - - x", Kind::Form),
        (
            14,
            b"from 0 0 - - 1267650600228229401496703205376",
            Kind::Range,
        ),
        (18, b"pivots 50001", Kind::Range),
        (19, b"pivot", Kind::Form),
        (19, b"pivot 2", Kind::Form),
        (19, b"pivot 2 3 2 1 0", Kind::Form),
        (19, b"pivot 9 3 2 1 0", Kind::Form),
        (19, b"pivot 2 0 3 2 9", Kind::Form),
        (19, b"pivot 2 0 3 2 99999999999", Kind::Form),
        (19, b"pivot 2 00 3 2 1", Kind::Form),
        (19, b"pivot 9 0 3 2 1", Kind::Range),
        (19, b"pivot 3 0 3 2 1", Kind::Range),
        (19, b"pivot -1 0 3 2 1", Kind::Range),
        (20, b"end 1", Kind::Form),
        (21, b"end", Kind::Rest),
    ];
    for (lines, line, kind) in &cases {
        assert_eq!(rt;
            fault_after(&rt, *lines, line)?,
            Some((u32::from(*lines) + 1, *kind))
        );
    }
    for (lines, line) in [(14, b"from 0 0 - - -".as_slice()), (18, b"pivots 50000")] {
        assert_eq!(rt;
            fault_after(&rt, lines, line)?,
            Some((u32::from(lines) + 2, Kind::Ended))
        );
    }
    Ok(())
}

#[test]
fn a_text_that_is_cut_has_ended(rt: HostRuntime) -> Result<(), Fail> {
    let mut text = Vec::new(rt.alloc());
    let mut line = 1_u32;
    for byte in TEXT_C {
        assert_eq!(rt; fault_of(&rt, text.as_slice()), Some((line, Kind::Ended)));
        text.push(*byte)?;
        if *byte == b'\n' {
            line = line.wrapping_add(1);
        }
    }
    text.push(b'x')?;
    assert_eq!(rt; fault_of(&rt, text.as_slice()), Some((22, Kind::Rest)));
    Ok(())
}

#[test]
fn prints_what_was_read(rt: HostRuntime) -> Result<(), Fail> {
    for text in [TEXT_C, TEXT_D, TEXT_E] {
        let mut printed = Vec::new(rt.alloc());
        Certificate::read(rt.alloc(), text)?.print(&mut printed)?;
        assert_eq!(rt; printed.as_slice(), text);
    }
    Ok(())
}
