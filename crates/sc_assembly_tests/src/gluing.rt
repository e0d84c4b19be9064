//! Small surfaces glued by hand, those of the worked texts, and one of as many sides as a fatgraph may have.

ghost use Rattle.std.specs.Prelude.{◌≡◌, ◌*◌, ◌<◌, ◌≤◌, map, length, IfOk};
ghost use Rattle.std.specs.List.{zip, filter_map};
ghost use Rattle.sc_theory.specs.Chains.{positions, weighted_length};
ghost use Rattle.sc_chain.specs.Faults.{AreGenerators};
ghost use Rattle.sc_words.specs.Spelling.{letter_of};
ghost use Rattle.sc_fatgraph.specs.declared.limits.TheConstants.{MAX_COPIES, MAX_SIDES};
ghost use Rattle.sc_gluing.specs.Gluing.{AreBalanced};

use sc_assembly::{Multiples, Part, glue};
use sc_chain::{Chain, Polygon, Word, letters_of};
use sc_fatgraph::Fatgraph;
use sc_fraction::Frac;
use std::alloc::{AllocError, Global};
use std::process::Abort;

/// The words of texts, each once.
pub(crate) fn words_of(
    rt: &impl Abort,
    alloc: Global,
    texts: &[&[u8]],
) -> Result<Vec<(u32, Word)>, AllocError>
    requires { length texts.now < 100 }
    ensures words { IfOk result (λ words. words.items ≡ map (λ text. (1, filter_map letter_of text.now)) texts.now) }
    ensures generators { IfOk result (λ words. AreGenerators words.items) }
    ensures few { IfOk result (λ words. positions words.items ≤ 100 * length texts.now) }
{
    let mut words = Vec::new(alloc);
    for text in texts {
        let letters = letters_of(alloc, text)?;
        assert!(rt; letters.len() < 100);
        words.push((1, Word::from_letters(letters)))?;
    }
    Ok(words)
}

/// The parts of walks. Their values aren't looked at.
fn parts_of(
    rt: &impl Abort,
    alloc: Global,
    chain: &Chain,
    walks: &[&[u32]],
) -> Result<Vec<Part>, AllocError>
    ensures { IfOk result (λ parts. map (λ part. part.polygon) parts.items ≡ map (λ walk. walk.now) walks.now) }
{
    let mut parts = Vec::new(alloc);
    for walk in walks {
        let walk = Vec::from_slice(alloc, walk)?;
        let polygon = Polygon::of(chain, walk).expect(rt, "a polygon");
        let value = Frac::new(1, 1).expect(rt, "one");
        parts.push(Part { polygon, value })?;
    }
    Ok(parts)
}

/// The fatgraph of copies of walks over the words of texts.
fn glued(
    rt: &impl Abort,
    alloc: Global,
    texts: &[&[u8]],
    n: u32,
    walks: &[&[u32]],
    counts: &[u32],
) -> Result<Fatgraph, AllocError>
    requires few_texts { length texts.now < 100 }
    requires some_copies { 1 ≤ n }
    requires few_copies { n ≤ MAX_COPIES }
    requires few_sides { n * weighted_length (map (λ text. (1, filter_map letter_of text.now)) texts.now) ≤ MAX_SIDES }
    requires as_many { length counts.now ≡ length walks.now }
    requires balanced { AreBalanced (map (λ text. (1, filter_map letter_of text.now)) texts.now) n (zip (map (λ walk. walk.now) walks.now) counts.now) }
{
    let words = words_of(rt, alloc, texts)?;
    let chain = Chain::of_reduced(alloc, words).expect(rt, "a chain");
    let parts = parts_of(rt, alloc, &chain, walks)?;
    let counts = Vec::from_slice(alloc, counts)?;
    glue(alloc, &chain, &Multiples { n, parts, counts })
}

/// Whether these are the sides, as label, mate and next.
fn has_sides(fatgraph: &Fatgraph, sides: &[(u32, u32, u32)]) -> bool {
    let found = fatgraph.sides().as_slice();
    found.len() == sides.len()
        && found.iter().zip(sides).all(|(side, triple)| (side.label, side.mate, side.next)
            == *triple)
}

#[test]
fn the_commutators_polygon_makes_a_torus(rt: HostRuntime) -> Result<(), AllocError> {
    let fatgraph = glued(&rt, rt.alloc(), &[b"abAB"], 1, &[&[0, 3, 2, 1]], &[1])?;
    assert!(&rt; has_sides(&fatgraph, &[(0, 2, 3), (3, 3, 0), (2, 0, 1), (1, 1, 2)]));
    Ok(())
}

#[test]
fn two_opposite_words_make_an_annulus(rt: HostRuntime) -> Result<(), AllocError> {
    let fatgraph = glued(&rt, rt.alloc(), &[b"a", b"A"], 1, &[&[0, 1]], &[1])?;
    assert!(&rt; has_sides(&fatgraph, &[(0, 1, 0), (1, 0, 1)]));
    Ok(())
}

#[test]
fn three_words_make_a_pair_of_pants(rt: HostRuntime) -> Result<(), AllocError> {
    let fatgraph = glued(
        &rt,
        rt.alloc(),
        &[b"a", b"b", b"AB"],
        1,
        &[&[0, 2, 1, 3]],
        &[1],
    )?;
    assert!(&rt; has_sides(&fatgraph, &[(0, 1, 0), (2, 0, 3), (1, 3, 2), (3, 2, 1)]));
    Ok(())
}

#[test]
fn copies_are_numbered_part_by_part(rt: HostRuntime) -> Result<(), AllocError> {
    let walks: [&[u32]; 4] = [&[0, 2], &[0, 3], &[1, 2], &[1, 3]];
    let fatgraph = glued(
        &rt,
        rt.alloc(),
        &[b"a", b"a", b"A", b"A"],
        2,
        &walks,
        &[2, 0, 0, 2],
    )?;
    let sides = [
        (0, 1, 0),
        (2, 0, 1),
        (0, 3, 2),
        (2, 2, 3),
        (1, 5, 4),
        (3, 4, 5),
        (1, 7, 6),
        (3, 6, 7),
    ];
    assert!(&rt; has_sides(&fatgraph, &sides));
    Ok(())
}

#[test]
fn nothing_is_glued_to_nothing(rt: HostRuntime) -> Result<(), AllocError> {
    let fatgraph = glued(&rt, rt.alloc(), &[], 1, &[], &[])?;
    assert!(&rt; fatgraph.is_empty());
    Ok(())
}

#[test]
fn as_many_sides_as_there_may_be(rt: HostRuntime) -> Result<(), AllocError> {
    let walks: [&[u32]; 4] = [&[0, 2], &[0, 3], &[1, 2], &[1, 3]];
    let counts = [1, 262_143, 262_143, 1];
    let fatgraph = glued(
        &rt,
        rt.alloc(),
        &[b"a", b"a", b"A", b"A"],
        262_144,
        &walks,
        &counts,
    )?;
    let found = fatgraph.counts(rt.alloc())?;
    assert_eq!(&rt; found.sides, 1_048_576);
    assert_eq!(&rt; found.vertices, 524_288);
    Ok(())
}
