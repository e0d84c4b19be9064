//! The reduction of small words and of lines.

ghost use Rattle.std.specs.Prelude.{◌<◌, ◌≤◌, ◌^◌, IfOk, unsigned_abs};
ghost use Rattle.std.specs.List.{All};
ghost use Rattle.sc_words.specs.ChainText.{IsRawLine};
ghost use Rattle.sc_words.specs.declared.limits.TheConstants.{GENERATORS};
ghost use Rattle.sc_reduce.specs.Lines.{letters_of as count_letters};

use crate::{cyclic_reduce, free_reduce, inverse_of, reduce_lines, same_element};
use sc_chain::limits::MAX_COEFFICIENT;
use sc_chain::{Chain, ChainFault, RawLine, Word, letters_of};
use std::alloc::{AllocError, Global};
use std::process::Abort;
use std::test::Fail;

/// The word that a text spells.
fn word(alloc: Global, text: &str) -> Result<Word, AllocError>
    ensures { IfOk result (λ w. All (λ x. x.number < GENERATORS) w) }
{
    Ok(Word::from_letters(letters_of(alloc, text.as_bytes())?))
}

/// The lines of coefficients and words.
fn lines(rt: &impl Abort, alloc: Global, terms: &[(i32, &str)]) -> Result<Vec<RawLine>, AllocError>
    ensures ranges { IfOk result (λ read. All IsRawLine read.items) }
    ensures letters { IfOk result (λ read. count_letters read.items < 2 ^ 32) }
{
    let mut read = Vec::new(alloc);
    let mut letters = 0;
    for (coefficient, text) in terms {
        let word = word(alloc, text)?;
        assert!(rt; coefficient.unsigned_abs() <= MAX_COEFFICIENT);
        assert!(rt; word.len() < 1000);
        assert!(rt; letters < 1_000_000);
        letters += word.len();
        read.push(RawLine {
            line: 1,
            coefficient: *coefficient,
            word,
        })?;
    }
    Ok(read)
}

/// Whether a chain has these weights and words.
fn is_chain(alloc: Global, chain: &Chain, entries: &[(u32, &str)]) -> Result<bool, AllocError> {
    if chain.words() != entries.len() {
        return Ok(false);
    }
    let mut place = 0;
    for (number, (weight, text)) in entries.iter().enumerate() {
        let word = word(alloc, text)?;
        if number >= chain.words() || chain.weight(number) != *weight {
            return Ok(false);
        }
        for letter in word.as_slice() {
            if place >= chain.positions() || chain.letter(place) != *letter {
                return Ok(false);
            }
            place += 1;
        }
    }
    Ok(place == chain.positions())
}

#[test]
fn words_are_reduced(rt: HostRuntime) -> Result<(), Fail> {
    let alloc = rt.alloc();
    for (text, free, cyclic, inverse) in [
        ("aabABA", "aabABA", "abAB", "abaBAA"),
        ("abB", "a", "a", "bBA"),
        ("aA", "", "", "aA"),
        ("abcCBA", "", "", "abcCBA"),
        ("baB", "baB", "a", "bAB"),
        ("abAB", "abAB", "abAB", "baBA"),
        ("aBbaAcCA", "", "", "acCaABbA"),
        ("z", "z", "z", "Z"),
        ("", "", "", ""),
    ] {
        let given = word(alloc, text)?;
        assert_eq!(rt;
            free_reduce(alloc, &given)?.as_slice(),
            word(alloc, free)?.as_slice(),
            "free {text}"
        );
        assert_eq!(rt;
            cyclic_reduce(alloc, &given)?.as_slice(),
            word(alloc, cyclic)?.as_slice(),
            "cyclic {text}"
        );
        assert_eq!(rt;
            inverse_of(alloc, &given)?.as_slice(),
            word(alloc, inverse)?.as_slice(),
            "inverse {text}"
        );
    }
    Ok(())
}

#[test]
fn elements_are_compared(rt: HostRuntime) -> Result<(), Fail> {
    let alloc = rt.alloc();
    for (u, v, same) in [
        ("abB", "a", true),
        ("ab", "ba", false),
        ("aA", "", true),
        ("a", "A", false),
        ("aabABA", "abAB", false),
    ] {
        let u = word(alloc, u)?;
        let v = word(alloc, v)?;
        assert_eq!(rt; same_element(alloc, &u, &v)?, same);
    }
    Ok(())
}

#[test]
fn lines_make_a_chain(rt: HostRuntime) -> Result<(), Fail> {
    let alloc = rt.alloc();
    let terms = [
        (1, "aabABA"),
        (-1, "abAB"),
        (0, "ab"),
        (5, "aA"),
        (2, "ab"),
        (1000, "ab"),
    ];
    let chain = reduce_lines(alloc, &lines(&rt, alloc, &terms)?)?;
    assert!(rt;
        is_chain(
            alloc,
            &chain,
            &[(1, "abAB"), (1, "baBA"), (2, "ab"), (1000, "ab")]
        )?
    );
    assert_eq!(rt; chain.total(0), 1002);
    Ok(())
}

// 65 letters
const LONG: &str = "aaaaaaaaaaaaaaaaaaaaaaaaaaaaaaaaaaaaaaaaaaaaaaaaaaaaaaaaaaaaaaaaa";

#[test]
fn limits_are_kept(rt: HostRuntime) -> Result<(), Fail> {
    let alloc = rt.alloc();
    let cases: [(&[(i32, &str)], Result<usize, ChainFault>); 7] = [
        (&[(1, &LONG[1..])], Ok(64)),
        (&[(1, LONG)], Err(ChainFault::ManyPositions { count: 65 })),
        (&[(1, "ab"); 32], Ok(64)),
        (
            &[(-1, "abc"); 32],
            Err(ChainFault::ManyPositions { count: 96 }),
        ),
        (&[(1, "a"); 33], Err(ChainFault::ManyWords { count: 33 })),
        (&[(-2, "abc"); 33], Err(ChainFault::ManyWords { count: 33 })),
        (&[(0, LONG), (1, "aA"), (3, "a")], Ok(1)),
    ];
    for (terms, want) in cases {
        let chain = reduce_lines(alloc, &lines(&rt, alloc, terms)?);
        assert_eq!(rt; chain.map(|chain| chain.positions()), want);
    }
    Ok(())
}
