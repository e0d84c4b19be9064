ghost use Rattle.std.specs.Prelude.{◌<◌, ◌≤◌, ◌^◌, length, IfOk};
ghost use Rattle.sc_theory.specs.Chains.{positions};
ghost use Rattle.sc_chain.specs.Faults.{AreGenerators};
ghost use Rattle.sc_words.specs.declared.limits.TheConstants.{GENERATORS};
ghost use Rattle.std.specs.List.{All};

use super::*;
use std::alloc::{AllocError, Global};
use std::fmt::Write;
use std::test::Fail;

// A word of at most 100 letters.
fn short_word(alloc: Global, text: &[u8]) -> Result<Word, AllocError>
    ensures generators { IfOk result (λ w. All (λ x. x.number < GENERATORS) w) }
    ensures short { IfOk result (λ w. length w ≤ 100) }
{
    let letters = letters_of(alloc, text)?;
    if letters.len() > 100 {
        return Ok(Word::new(alloc));
    }
    Ok(Word::from_letters(letters))
}

// The words that spaces cut, each with its weight.
fn words_of(alloc: Global, weights: &[u32], text: &[u8]) -> Result<Vec<(u32, Word)>, AllocError>
    ensures generators { IfOk result (λ words. AreGenerators words.items) }
    ensures few { IfOk result (λ words. positions words.items < 2 ^ 32) }
{
    let mut words = Vec::new(alloc);
    for (weight, part) in weights.iter().zip(text.split(|byte| *byte == b' ')) {
        if words.len() < 100 {
            words.push((*weight, short_word(alloc, part)?))?;
        }
    }
    Ok(words)
}

// What a text of words is as a chain, or its fault.
fn chain_of(alloc: Global, weights: &[u32], text: &[u8]) -> Result<Chain, ChainFault> {
    Chain::of_reduced(alloc, words_of(alloc, weights, text)?)
}

// The letters as a text spells them.
fn show_letters(letters: &[Letter], shown: &mut String) -> Result<(), AllocError> {
    for letter in letters {
        let first = if letter.inverse { b'A' } else { b'a' };
        shown.push(char::from(first.wrapping_add(letter.number)))?;
    }
    Ok(())
}

#[test]
fn lists_of_words_have_one_first_fault(rt: HostRuntime) -> Result<(), Fail> {
    let long = [b'a'; 65];
    let ones = [1; 33];
    let cases: [(&[u32], &[u8], Option<ChainFault>); 17] = [
        (&[], b"", None),
        (&[1, 0], b"abAB a", None),
        (
            &[1],
            b"aA",
            Some(ChainFault::NotReduced { word: 0, place: 0 }),
        ),
        (
            &[1],
            b"abA",
            Some(ChainFault::NotReduced { word: 0, place: 2 }),
        ),
        (
            &[1],
            b"abBA",
            Some(ChainFault::NotReduced { word: 0, place: 1 }),
        ),
        (&[1, 2], b"ab ", Some(ChainFault::EmptyWord { word: 1 })),
        (&[1, 1], b" aA", Some(ChainFault::EmptyWord { word: 0 })),
        (
            &[1, 1],
            b"aA ",
            Some(ChainFault::NotReduced { word: 0, place: 0 }),
        ),
        (
            &ones[..32],
            b"a a a a a a a a a a a a a a a a a a a a a a a a a a a a a a a a",
            None,
        ),
        (
            &ones,
            b"a a a a a a a a a a a a a a a a a a a a a a a a a a a a a a a a a",
            Some(ChainFault::ManyWords { count: 33 }),
        ),
        (&[1], &long[..64], None),
        (&[1], &long, Some(ChainFault::ManyPositions { count: 65 })),
        (&[524288], b"ab", None),
        (
            &[524288, 1],
            b"ab c",
            Some(ChainFault::Heavy { length: 1048577 }),
        ),
        (
            &[u32::MAX],
            &long[..64],
            Some(ChainFault::Heavy {
                length: 274877906880,
            }),
        ),
        (
            &[u32::MAX, 1],
            b"ab aA",
            Some(ChainFault::NotReduced { word: 1, place: 0 }),
        ),
        (
            &[u32::MAX, 1],
            b"ab a",
            Some(ChainFault::Heavy { length: 8589934591 }),
        ),
    ];
    for (weights, text, expected) in cases {
        assert_eq!(rt;
            chain_of(rt.alloc(), weights, text).err(),
            expected,
            "at {weights:?} {text:?}"
        );
    }
    Ok(())
}

// Each position as `LETTER NEXT PREVIOUS WORD`, and each word as `FIRST WEIGHT LETTERS`.
fn shown_chain(alloc: Global, chain: &Chain) -> Result<String, AllocError> {
    let mut shown = String::new(alloc);
    for i in 0..chain.positions() {
        show_letters(&[chain.letter(i)], &mut shown)?;
        let next = chain.succ(i);
        let previous = chain.prev(i);
        let word = chain.word_of(i);
        write!(shown, " {next} {previous} {word}, ")?;
    }
    for w in 0..chain.words() {
        let first = chain.first_of(w);
        let weight = chain.weight(w);
        write!(shown, "{first} {weight}, ")?;
    }
    for (weight, word) in chain.entries() {
        write!(shown, "{weight} ")?;
        show_letters(word.as_slice(), &mut shown)?;
    }
    let length = chain.length();
    write!(shown, ", {length}")?;
    Ok(shown)
}

#[test]
fn positions_go_round_their_words(rt: HostRuntime) -> Result<(), Fail> {
    let Ok(chain) = chain_of(rt.alloc(), &[2, 7, 1], b"abb C bb") else {
        return Err(Fail::from("no chain"));
    };
    let shown =
        "a 1 2 0, b 2 0 0, b 0 1 0, C 3 3 1, b 5 5 2, b 4 4 2, 0 2, 3 7, 4 1, 2 abb7 C1 bb, 15";
    assert_eq!(rt; shown_chain(rt.alloc(), &chain)?.as_str(), shown);
    assert_eq!(rt;
        shown_chain(rt.alloc(), &chain.copy(rt.alloc())?)?.as_str(),
        shown
    );
    for (generator, total) in [(0, 2), (1, 6), (2, -7), (3, 0), (200, 0)] {
        assert_eq!(rt; chain.total(generator), total, "at {generator}");
    }
    Ok(())
}

#[test]
fn the_first_unbalanced_generator_has_its_total(rt: HostRuntime) -> Result<(), Fail> {
    let long = [b'a'; 64];
    let cases: [(&[u32], &[u8], Option<(u8, i64)>); 9] = [
        (&[], b"", None),
        (&[1], b"aab", Some((0, 2))),
        (&[1], b"abAB", None),
        (&[1, 2], b"aa A", None),
        (&[1, 1, 1], b"a b AB", None),
        (&[1, 3], b"abAB cDD", Some((2, 3))),
        (&[1, 3], b"abAB Dz", Some((3, -3))),
        (&[0, 5], b"ab zz", Some((25, 10))),
        (&[1], &long, Some((0, 64))),
    ];
    for (weights, text, expected) in cases {
        match chain_of(rt.alloc(), weights, text) {
            Ok(chain) => assert_eq!(rt; chain.first_unbalanced(), expected, "at {text:?}"),
            Err(fault) => assert!(rt; false, "{fault:?} at {text:?}"),
        }
    }
    Ok(())
}

// The steps of a chain, and its pairs.
fn shown_steps(alloc: Global, chain: &Chain, pairs: &Pairs) -> Result<String, AllocError> {
    let mut shown = String::new(alloc);
    for i in 0..chain.positions() {
        for j in 0..chain.positions() {
            if chain.is_step(i, j) {
                write!(shown, "{i} {j}, ")?;
            }
        }
    }
    for row in 0..pairs.count() {
        let (p, q) = pairs.pair_at(row);
        write!(shown, "({p} {q})")?;
    }
    Ok(shown)
}

#[test]
fn inverse_pairs_have_rows(rt: HostRuntime) -> Result<(), Fail> {
    let Ok(chain) = chain_of(rt.alloc(), &[1], b"abAB") else {
        return Err(Fail::from("no chain"));
    };
    let pairs = Pairs::of(rt.alloc(), &chain)?;
    assert_eq!(rt;
        shown_steps(rt.alloc(), &chain, &pairs)?.as_str(),
        "0 3, 1 0, 2 1, 3 2, (0 2)(1 3)"
    );
    let cases: [(u8, u8, Option<(usize, Sign)>); 8] = [
        (0, 2, Some((0, Sign::Plus))),
        (2, 0, Some((0, Sign::Minus))),
        (1, 3, Some((1, Sign::Plus))),
        (3, 1, Some((1, Sign::Minus))),
        (0, 1, None),
        (0, 0, None),
        (0, 4, None),
        (9, 0, None),
    ];
    for (p, q, expected) in cases {
        assert_eq!(rt;
            pairs.row_of(usize::from(p), usize::from(q)),
            expected,
            "at {p} {q}"
        );
    }
    Ok(())
}

// Whether a walk is a polygon of a chain, and the polygon and its copy are the walk.
fn are_polygons(alloc: Global, chain: &Chain, walk: &[u32]) -> Result<bool, AllocError> {
    match Polygon::of(chain, Vec::from_slice(alloc, walk)?) {
        Some(polygon) => {
            let pivot = Pivot {
                row: 0,
                polygon: polygon.copy(alloc)?,
            };
            Ok(polygon.walk() == walk && pivot.polygon.walk() == walk)
        }
        None => Ok(false),
    }
}

#[test]
fn polygons_are_closed_walks_without_repeats(rt: HostRuntime) -> Result<(), Fail> {
    let cases: [(&[u32], &[u8], &[u32], bool); 14] = [
        (&[1], b"abAB", &[0, 3, 2, 1], true),
        (&[1], b"abAB", &[3, 2, 1, 0], false),
        (&[1], b"abAB", &[0, 3, 2], false),
        (&[1], b"abAB", &[0], false),
        (&[1], b"abAB", &[], false),
        (&[1], b"abAB", &[0, 3, 2, 1, 0, 3, 2, 1], false),
        (&[1], b"abAB", &[0, 9], false),
        (&[1], b"abAB", &[4294967295, 0], false),
        (&[1, 1, 1], b"a b AB", &[0, 2, 1, 3], true),
        (&[1, 1, 1], b"a b AB", &[1, 3, 0, 2], false),
        (&[1, 2], b"aa A", &[0, 2], true),
        (&[1, 2], b"aa A", &[1, 2], true),
        (&[1, 2], b"aa A", &[0, 2, 1, 2], false),
        (&[1, 2], b"aa A", &[2, 0], false),
    ];
    for (weights, text, walk, expected) in cases {
        match chain_of(rt.alloc(), weights, text) {
            Ok(chain) => assert_eq!(rt;
                are_polygons(rt.alloc(), &chain, walk)?,
                expected,
                "at {text:?} {walk:?}"
            ),
            Err(fault) => assert!(rt; false, "{fault:?} at {text:?}"),
        }
    }
    Ok(())
}
