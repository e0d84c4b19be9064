//! Texts of two chains, good and malformed.

use super::*;
use sc_chain::{RawLine, TextFault};
use std::alloc::{AllocError, Global};
use std::fmt::Write;
use std::test::Fail;

/// Shows lines as `LINE:COEFFICIENT:LETTERS` each.
fn show_lines(lines: &[RawLine], shown: &mut String) -> Result<(), AllocError> {
    for line in lines {
        let number = line.line;
        let coefficient = line.coefficient;
        write!(shown, "{number}:{coefficient}:")?;
        for letter in line.word.as_slice() {
            let first = if letter.inverse { b'A' } else { b'a' };
            shown.push(char::from(first.wrapping_add(letter.number)))?;
        }
        shown.push(' ')?;
    }
    Ok(())
}

/// The lines that are read of a short text, with a slash between those of the two chains, or its fault.
fn shown(alloc: Global, text: &[u8]) -> Result<String, AllocError> {
    let mut shown = String::new(alloc);
    if text.len() > 1000 {
        return Ok(shown);
    }
    match read_two(alloc, text) {
        Ok((first, second)) => {
            show_lines(first.as_slice(), &mut shown)?;
            shown.push_str("/ ")?;
            show_lines(second.as_slice(), &mut shown)?;
        }
        Err(TextFault::Malformed { line, kind }) => write!(shown, "{line} {kind:?}")?,
        Err(TextFault::Memory) => write!(shown, "memory")?,
    }
    Ok(shown)
}

#[test]
fn a_slash_separates_two_chains(rt: HostRuntime) -> Result<(), Fail> {
    let cases: [(&[u8], &str); 24] = [
        (b"abAB\n/\ncdCD\n", "1:1:abAB / 3:1:cdCD "),
        (b"abAB\n/\ncdCD", "1:1:abAB / 3:1:cdCD "),
        (b"abAB\r\n/\r\ncdCD\r\n", "1:1:abAB / 3:1:cdCD "),
        (
            b"# x\n2 ab\n\n-1 BA\n \t/\t \n\n# y\n3 c\nC",
            "2:2:ab 4:-1:BA / 8:3:c 9:1:C ",
        ),
        (b"/", "/ "),
        (b"\n/\r", "/ "),
        (b"/\na", "/ 2:1:a "),
        (b"a\n/", "1:1:a / "),
        (b"#/\n/\n# /\n", "/ "),
        (b"", "1 Separator"),
        (b"\n", "2 Separator"),
        (b"abAB\ncdCD\n", "3 Separator"),
        (b"abAB\ncdCD", "3 Separator"),
        (b"a\n#/\r\n\r\n", "4 Separator"),
        (b"a\n/\nb\n/\nc", "4 Separator"),
        (b"/\n / ", "2 Separator"),
        (b"/\n/\n1", "2 Separator"),
        (b"1\n/\n/", "1 MissingWord"),
        (b"a\n/\nb\n1001 c\n/", "4 Coefficient"),
        (b"//\n/", "1 Letter"),
        (b"a\n/ /\n/", "2 Letter"),
        (b"a\n/\nb / c", "3 Extra"),
        (b"a\n/\n1 /", "3 Letter"),
        (b"a\n/\xff\n/", "2 NotAscii"),
    ];
    for (text, expected) in cases {
        assert_eq!(rt; shown(rt.alloc(), text)?.as_str(), expected, "at {text:?}");
    }
    Ok(())
}
