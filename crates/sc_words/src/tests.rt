ghost use Rattle.std.specs.Prelude.{◌<◌, ◌^◌, length};

use super::*;
use std::alloc::{AllocError, Global};
use std::fmt::Write;
use std::test::Fail;

// The letters as a text spells them.
fn show_letters(letters: &[Letter], shown: &mut String) -> Result<(), AllocError> {
    for letter in letters {
        let first = if letter.inverse { b'A' } else { b'a' };
        shown.push(char::from(first.wrapping_add(letter.number)))?;
    }
    Ok(())
}

// The lines that are read of a text, or its fault: `LINE:COEFFICIENT:LETTERS` each.
fn shown_lines(alloc: Global, text: &[u8]) -> Result<String, AllocError>
    requires { length text.now < 2 ^ 32 }
{
    let mut shown = String::new(alloc);
    match read_lines(alloc, text) {
        Ok(read) => {
            for line in &read {
                let number = line.line;
                let coefficient = line.coefficient;
                write!(shown, "{number}:{coefficient}:")?;
                show_letters(line.word.as_slice(), &mut shown)?;
                shown.push(' ')?;
            }
        }
        Err(TextFault::Malformed { line, kind }) => write!(shown, "{line} {kind:?}")?,
        Err(TextFault::Memory) => write!(shown, "memory")?,
    }
    Ok(shown)
}

#[test]
fn chain_texts_are_read_line_by_line(rt: HostRuntime) -> Result<(), Fail> {
    let cases: [(&[u8], &str); 41] = [
        (b"", ""),
        (b"\n", ""),
        (b"abAB", "1:1:abAB "),
        (b"abAB\ncdCD\n", "1:1:abAB 2:1:cdCD "),
        (b"# x\n\n \t\nab\n", "4:1:ab "),
        (b"+02 ab", "1:2:ab "),
        (b"0 ab\n-0 ab\n", "1:0:ab 2:0:ab "),
        (b"-1000 zZ\n1000 Az\n", "1:-1000:zZ 2:1000:Az "),
        (b" \t2\t \tab \t\n", "1:2:ab "),
        (b"ab\r\ncd\r", "1:1:ab 2:1:cd "),
        (b"\r\n\r", ""),
        (b"#\xff\xfe ab\nab", "2:1:ab "),
        (b"\t# 1001 a?\nab", "2:1:ab "),
        (b"aA\naA", "1:1:aA 2:1:aA "),
        (b"0001 a\n", "1:1:a "),
        (b"# x\nab?B", "2 Letter"),
        (b"2", "1 MissingWord"),
        (b"1001 ab", "1 Coefficient"),
        (b"a b", "1 Extra"),
        (b"a\xffb", "1 NotAscii"),
        (b"ab \x80", "1 NotAscii"),
        (b"1 \xc3\xa4", "1 NotAscii"),
        (b"-", "1 Coefficient"),
        (b"+", "1 Coefficient"),
        (b"1a", "1 Coefficient"),
        (b"1a b", "1 Coefficient"),
        (b"12345 a", "1 Coefficient"),
        (b"00001 a", "1 Coefficient"),
        (b"--1 a", "1 Coefficient"),
        (b"1001 a?", "1 Coefficient"),
        (b"0 a?", "1 Letter"),
        (b"2 a b", "1 Extra"),
        (b"2 a? b", "1 Letter"),
        (b"a? b", "1 Letter"),
        (b"a # x", "1 Extra"),
        (b"1 # x", "1 Letter"),
        (b"a\rb", "1 Letter"),
        (b"ab\r\r\n", "1 Letter"),
        (b"/", "1 Letter"),
        (b"ab\n2 2\nab?\n", "2 Letter"),
        (b"ab\n\n\n2\n2", "4 MissingWord"),
    ];
    for (text, expected) in cases {
        assert!(rt; text.len() < 100);
        assert_eq!(rt;
            shown_lines(rt.alloc(), text)?.as_str(),
            expected,
            "at {text:?}"
        );
    }
    Ok(())
}

// The word of a text, made in every way, as it is spelled, and whether it is reduced.
fn shown_word(alloc: Global, text: &[u8]) -> Result<String, AllocError> {
    let letters = letters_of(alloc, text)?;
    let word = Word::from_slice(alloc, letters.as_slice())?;
    let mut pushed = Word::new(alloc);
    for letter in word.as_slice() {
        pushed.push(*letter)?;
    }
    let copied = pushed.copy(alloc)?;
    let mut shown = String::new(alloc);
    for place in 0..copied.len() {
        show_letters(&[copied.letter(place)], &mut shown)?;
    }
    let reduced = copied.is_reduced();
    let empty = copied.is_empty();
    write!(shown, " {reduced} {empty}")?;
    Ok(shown)
}

#[test]
fn words_are_lists_of_letters(rt: HostRuntime) -> Result<(), Fail> {
    let cases: [(&[u8], &str); 7] = [
        (b"", " true true"),
        (b"a", "a true false"),
        (b"aa", "aa true false"),
        (b"aA", "aA false false"),
        (b"abA", "abA false false"),
        (b"a/b@A[B`{1\xff", "abAB true false"),
        (b"zbcCBZ", "zbcCBZ false false"),
    ];
    for (text, expected) in cases {
        assert_eq!(rt;
            shown_word(rt.alloc(), text)?.as_str(),
            expected,
            "at {text:?}"
        );
    }
    let a = Letter {
        number: 0,
        inverse: false,
    };
    assert_eq!(rt; letter_of(b'A'), Some(inverse_of(a)));
    assert!(rt; is_inverse(a, inverse_of(a)) && !is_inverse(a, a));
    assert!(rt; are_letters(b"azAZ") && !are_letters(b"a1"));
    Ok(())
}
