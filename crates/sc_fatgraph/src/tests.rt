//! Fatgraphs and lists of sides that are none, with the counts and the first flaws that were worked out by hand.

ghost use Rattle.std.specs.Prelude.{◌≡◌, ℕ, ◌*◌, ◌<◌, ◌≤◌, length, get_or, IfOk};
ghost use Rattle.sc_theory.specs.Chains.{no_letter, positions};
ghost use Rattle.sc_chain.specs.Faults.{AreGenerators};

use super::*;
use sc_chain::{Chain, Letter, Word};
use std::alloc::{AllocError, Global};
use std::process::Abort;

/// Words with their weights.
type Texts = &'static [(u32, &'static [u8])];

/// Sides: label, mate and next.
type Triples = &'static [(u32, u32, u32)];

/// The word of a text: a small letter is a generator, a capital its inverse.
fn word_of(alloc: Global, text: &[u8]) -> Result<Word, AllocError>
    ensures letters { IfOk result (λ w. (k : ℕ) → k < length w → (get_or w k no_letter).number < 26) }
    ensures len { IfOk result (λ w. length w ≡ length text.now) }
{
    let mut word = Word::new(alloc);
    for byte in text {
        word.push(Letter {
            number: (*byte % 32).saturating_sub(1).min(25),
            inverse: *byte < 97,
        })?;
    }
    Ok(word)
}

/// The weighted words of texts.
fn words_of(
    rt: &impl Abort,
    alloc: Global,
    texts: &[(u32, &[u8])],
) -> Result<Vec<(u32, Word)>, AllocError>
    requires { length texts.now < 100 }
    ensures generators { IfOk result (λ words. AreGenerators words.items) }
    ensures few { IfOk result (λ words. positions words.items ≤ 100 * length texts.now) }
{
    let mut words = Vec::new(alloc);
    for text in texts {
        assert!(rt; text.1.len() < 100);
        words.push((text.0, word_of(alloc, text.1)?))?;
    }
    Ok(words)
}

/// The sides of triples of label, mate and next.
fn sides_of(alloc: Global, triples: &[(u32, u32, u32)]) -> Result<Sides, AllocError>
    ensures { IfOk result (λ sides. length sides ≡ length triples.now) }
{
    let mut sides = Sides::new(alloc);
    for triple in triples {
        sides.push(Side {
            label: triple.0,
            mate: triple.1,
            next: triple.2,
        })?;
    }
    Ok(sides)
}

/// What the test answers for these sides over `n` copies of the chain of these texts: the counts, or the fault.
fn judge(
    rt: &impl Abort,
    alloc: Global,
    texts: &[(u32, &[u8])],
    n: u32,
    triples: &[(u32, u32, u32)],
) -> Result<Result<Counts, SurfaceFault>, AllocError> {
    assert!(rt; texts.len() < 100);
    assert!(rt; triples.len() < 100);
    assert!(rt; n >= 1 && n <= 1_048_576);
    let words = words_of(rt, alloc, texts)?;
    let chain = Chain::of_reduced(alloc, words).expect(rt, "a chain");
    match Fatgraph::check(alloc, chain, n, sides_of(alloc, triples)?) {
        Ok(fatgraph) => {
            assert_eq!(rt; fatgraph.copies(), n);
            assert_eq!(rt; fatgraph.len() as usize, triples.len());
            assert_eq!(rt; fatgraph.chain().words(), texts.len());
            Ok(Ok(fatgraph.counts(alloc)?))
        }
        Err(fault) => Ok(Err(fault)),
    }
}

#[test]
fn counts_the_orbits_of_turn(rt: HostRuntime) -> Result<(), AllocError> {
    let cases: [(Texts, u32, Triples, u32, u32, u32); 10] = [
        (&[], 1, &[], 0, 0, 0),
        (&[], 1_048_576, &[], 0, 0, 0),
        (&[], 7, &[], 0, 0, 0),
        (
            &[(1, b"abAB")],
            1,
            &[(0, 2, 1), (1, 3, 2), (2, 0, 3), (3, 1, 0)],
            4,
            1,
            2,
        ),
        (
            &[(1, b"abAB")],
            1,
            &[(0, 2, 3), (3, 3, 0), (2, 0, 1), (1, 1, 2)],
            4,
            1,
            2,
        ),
        (
            &[(1, b"abAB")],
            2,
            &[
                (0, 2, 1),
                (1, 3, 2),
                (2, 0, 3),
                (3, 1, 4),
                (0, 6, 5),
                (1, 7, 6),
                (2, 4, 7),
                (3, 5, 0),
            ],
            8,
            1,
            4,
        ),
        // two cycles of next, one vertex
        (&[(1, b"a"), (1, b"A")], 1, &[(0, 1, 0), (1, 0, 1)], 2, 1, 1),
        // three cycles of next, one vertex
        (
            &[(1, b"a"), (1, b"b"), (1, b"AB")],
            1,
            &[(0, 2, 0), (1, 3, 1), (2, 0, 3), (3, 1, 2)],
            4,
            1,
            2,
        ),
        // an annulus: two cycles of next, two vertices
        (
            &[(2, b"a"), (2, b"A")],
            1,
            &[(0, 2, 1), (0, 3, 0), (1, 0, 3), (1, 1, 2)],
            4,
            2,
            2,
        ),
        // two components
        (
            &[(1, b"abAB"), (1, b"cdCD")],
            1,
            &[
                (0, 2, 1),
                (1, 3, 2),
                (2, 0, 3),
                (3, 1, 0),
                (4, 6, 5),
                (5, 7, 6),
                (6, 4, 7),
                (7, 5, 4),
            ],
            8,
            2,
            4,
        ),
    ];
    for (number, case) in cases.iter().enumerate() {
        let counts = judge(&rt, rt.alloc(), case.0, case.1, case.2)?;
        let want = Counts {
            sides: case.3,
            vertices: case.4,
            edges: case.5,
        };
        assert_eq!(rt; counts, Ok(want), "case {number}");
    }
    Ok(())
}

#[test]
fn answers_the_first_flaw(rt: HostRuntime) -> Result<(), AllocError> {
    let commutator: Texts = &[(1, b"abAB")];
    let two_words: Texts = &[(1, b"abAB"), (1, b"cdCD")];
    let cases: [(Texts, u32, Triples, FlawKind, u32); 16] = [
        (
            commutator,
            1,
            &[(0, 2, 1), (1, 3, 2), (4, 0, 3), (3, 1, 0)],
            FlawKind::Range,
            2,
        ),
        (
            commutator,
            1,
            &[(0, 2, 1), (1, 4, 2), (2, 0, 3), (3, 1, 0)],
            FlawKind::Range,
            1,
        ),
        (
            commutator,
            1,
            &[(0, 2, 1), (1, 3, 2), (2, 0, 3), (3, 1, 4)],
            FlawKind::Range,
            3,
        ),
        (&[], 1, &[(0, 1, 0), (0, 0, 1)], FlawKind::Range, 0),
        (
            commutator,
            1,
            &[(0, 0, 3), (3, 3, 0), (2, 0, 1), (1, 1, 2)],
            FlawKind::Mate,
            0,
        ),
        (
            commutator,
            1,
            &[(0, 2, 1), (1, 3, 2), (2, 0, 3), (3, 0, 0)],
            FlawKind::Mate,
            1,
        ),
        (
            commutator,
            1,
            &[(0, 1, 1), (1, 0, 2), (2, 3, 3), (3, 2, 0)],
            FlawKind::Letter,
            0,
        ),
        // letters that are equal
        (
            &[(2, b"a"), (2, b"A")],
            1,
            &[
                (0, 2, 0),
                (0, 3, 1),
                (1, 0, 2),
                (1, 1, 3),
                (1, 5, 4),
                (1, 4, 5),
            ],
            FlawKind::Letter,
            4,
        ),
        (
            commutator,
            1,
            &[(0, 2, 1), (1, 3, 1), (2, 0, 3), (3, 1, 0)],
            FlawKind::Next,
            1,
        ),
        (
            commutator,
            1,
            &[(0, 2, 2), (1, 3, 3), (2, 0, 0), (3, 1, 1)],
            FlawKind::Label,
            0,
        ),
        (
            commutator,
            2,
            &[(0, 2, 1), (1, 3, 2), (2, 0, 3), (3, 1, 0)],
            FlawKind::Count,
            0,
        ),
        // the word without sides
        (
            two_words,
            1,
            &[(0, 2, 1), (1, 3, 2), (2, 0, 3), (3, 1, 0)],
            FlawKind::Count,
            1,
        ),
        // as many sides in all as there should be, on the wrong words
        (
            &[(1, b"a"), (3, b"a"), (2, b"A"), (2, b"A")],
            1,
            &[
                (0, 4, 0),
                (0, 5, 1),
                (1, 6, 2),
                (1, 7, 3),
                (2, 0, 4),
                (2, 1, 5),
                (3, 2, 6),
                (3, 3, 7),
            ],
            FlawKind::Count,
            0,
        ),
        // two flaws: an earlier kind at a greater place
        (
            commutator,
            1,
            &[(0, 0, 1), (1, 3, 2), (2, 0, 3), (3, 1, 9)],
            FlawKind::Range,
            3,
        ),
        (
            commutator,
            1,
            &[(0, 1, 1), (1, 0, 2), (2, 2, 3), (3, 2, 0)],
            FlawKind::Mate,
            2,
        ),
        (
            commutator,
            1,
            &[(0, 2, 2), (1, 3, 2), (2, 0, 0), (3, 1, 1)],
            FlawKind::Next,
            1,
        ),
    ];
    for (number, case) in cases.iter().enumerate() {
        let answer = judge(&rt, rt.alloc(), case.0, case.1, case.2)?;
        let want = SurfaceFault::Flaw {
            kind: case.3,
            place: case.4,
        };
        assert_eq!(rt; answer, Err(want), "case {number}");
    }
    Ok(())
}

#[test]
fn keeps_the_sides_in_order(rt: HostRuntime) -> Result<(), AllocError> {
    let mut sides = Sides::new(rt.alloc());
    assert!(rt; sides.is_empty());
    let torus = [(0, 2, 1), (1, 3, 2), (2, 0, 3), (3, 1, 0)];
    for (label, mate, next) in torus {
        sides.push(Side { label, mate, next })?;
    }
    assert_eq!(rt; sides.len(), 4);
    assert_eq!(rt; sides.as_slice().len(), 4);
    let last = Side {
        label: 3,
        mate: 1,
        next: 0,
    };
    assert_eq!(rt; sides.get(3), Some(last));
    assert_eq!(rt; sides.get(4), None);
    let words = words_of(&rt, rt.alloc(), &[(1, b"abAB")])?;
    let chain = Chain::of_reduced(rt.alloc(), words).expect(&rt, "a chain");
    let fatgraph = Fatgraph::check(rt.alloc(), chain, 1, sides).expect(&rt, "a fatgraph");
    assert_eq!(rt; fatgraph.sides().len(), 4);
    assert!(rt; !fatgraph.is_empty());
    assert!(rt; fatgraph.len() == 4);
    assert_eq!(rt; fatgraph.side(3), last);
    Ok(())
}

const TEXT_A: &[u8] =
    b"scallop surface 1\nwords 1\nword 1 abAB\ncopies 1\nsides 4\nside 0 2 1\nside 1 3 2\nside 2 0 3\nside 3 1 0\nend\n";

const TEXT_B: &[u8] =
    b"scallop surface 1\nwords 1\nword 1 abAB\ncopies 2\nsides 8\nside 0 2 1\nside 1 3 2\nside 2 0 3\nside 3 1 4\nside 0 6 5\nside 1 7 6\nside 2 4 7\nside 3 5 0\nend\n";

#[test]
fn what_was_read_is_printed_again(rt: HostRuntime) -> Result<(), AllocError> {
    let alloc = rt.alloc();
    for text in [TEXT_A, TEXT_B] {
        let SurfaceText { chain, n, sides } = read_surface(alloc, text).expect(&rt, "a text");
        let fatgraph = Fatgraph::check(alloc, chain, n, Sides::from_vec(sides)).expect(
            &rt,
            "a fatgraph",
        );
        let mut out = Vec::new(alloc);
        print_surface(&fatgraph, &mut out)?;
        assert_eq!(rt; out.as_slice(), text);
    }
    Ok(())
}

#[test]
fn the_seed_surface_goes_round_the_words(rt: HostRuntime) -> Result<(), AllocError> {
    let alloc = rt.alloc();
    let texts: [&[u8]; 4] = [
        TEXT_A,
        b"scallop surface 1\nwords 0\ncopies 1\nsides 0\nend\n",
        b"scallop surface 1\nwords 2\nword 2 a\nword 2 A\ncopies 1\nsides 4\nside 0 2 0\nside 0 3 1\nside 1 0 2\nside 1 1 3\nend\n",
        b"scallop surface 1\nwords 2\nword 2 ab\nword 2 AB\ncopies 1\nsides 8\nside 0 4 1\nside 1 5 0\nside 0 6 3\nside 1 7 2\nside 2 0 5\nside 3 1 4\nside 2 2 7\nside 3 3 6\nend\n",
    ];
    for text in texts {
        let chain = read_surface(alloc, text).expect(&rt, "a text").chain;
        assert!(rt; chain.first_unbalanced().is_none());
        let mut out = Vec::new(alloc);
        print_surface(&seed_surface(alloc, &chain)?, &mut out)?;
        assert_eq!(rt; out.as_slice(), text);
    }
    Ok(())
}
