//! Multiples of values that are given as counts over a number of copies.

ghost use Rattle.std.specs.Prelude.{◌≡◌, ◌<◌, ◌≤◌, map, length, pos, IfOk};
ghost use Rattle.std.specs.List.{zip, filter_map};
ghost use Rattle.sc_words.specs.Spelling.{letter_of};
ghost use Rattle.sc_gluing.specs.Gluing.{AreBalanced};
ghost use Rattle.sc_assembly.specs.Multiples.{IsTimes, AreCounts};

use crate::gluing::words_of;
use sc_assembly::{Multiples, Part, PartsFault, multiples};
use sc_chain::{Chain, Polygon};
use sc_fraction::Frac;
use std::alloc::{AllocError, Global};
use std::process::Abort;

/// The part of a walk whose value is a count over `n`.
fn valued_part(
    rt: &impl Abort,
    alloc: Global,
    chain: &Chain,
    walk: &[u32],
    n: u32,
    count: u32,
) -> Result<Part, AllocError>
    requires { 1 ≤ n }
    ensures polygon { IfOk result (λ part. part.polygon ≡ walk.now) }
    ensures times { IfOk result (λ part. IsTimes n part.value (pos count)) }
{
    let walk = Vec::from_slice(alloc, walk)?;
    let polygon = Polygon::of(chain, walk).expect(rt, "a polygon");
    let value = Frac::new(i128::from(count), i128::from(n)).expect(rt, "a fraction");
    Ok(Part { polygon, value })
}

/// The parts of walks whose values are counts over `n`.
fn valued_parts(
    rt: &impl Abort,
    alloc: Global,
    chain: &Chain,
    walks: &[&[u32]],
    n: u32,
    counts: &[u32],
) -> Result<Vec<Part>, AllocError>
    requires some_copies { 1 ≤ n }
    requires as_many { length counts.now ≡ length walks.now }
    ensures polygons { IfOk result (λ parts. map (λ part. part.polygon) parts.items ≡ map (λ walk. walk.now) walks.now) }
    ensures counts { IfOk result (λ parts. AreCounts n parts.items counts.now) }
{
    let mut parts = Vec::new(alloc);
    for (place, walk) in walks.iter().enumerate() {
        parts.push(valued_part(rt, alloc, chain, walk, n, counts[place])?)?;
    }
    Ok(parts)
}

/// The multiples of counts over `n` copies of the words of texts.
fn found(
    rt: &impl Abort,
    alloc: Global,
    texts: &[&[u8]],
    walks: &[&[u32]],
    n: u32,
    counts: &[u32],
) -> Result<Multiples, PartsFault>
    requires few_texts { length texts.now < 100 }
    requires few_walks { length walks.now < 100 }
    requires some_copies { 1 ≤ n }
    requires as_many { length counts.now ≡ length walks.now }
    requires balanced { AreBalanced (map (λ text. (1, filter_map letter_of text.now)) texts.now) n (zip (map (λ walk. walk.now) walks.now) counts.now) }
{
    let words = words_of(rt, alloc, texts)?;
    let chain = Chain::of_reduced(alloc, words).expect(rt, "a chain");
    let parts = valued_parts(rt, alloc, &chain, walks, n, counts)?;
    multiples(alloc, &chain, parts)
}

#[test]
fn values_are_made_whole(rt: HostRuntime) -> Result<(), PartsFault> {
    let texts: [&[u8]; 4] = [b"a", b"a", b"A", b"A"];
    let walks: [&[u32]; 4] = [&[0, 2], &[0, 3], &[1, 2], &[1, 3]];
    let thirds = found(&rt, rt.alloc(), &texts, &walks, 6, &[2, 4, 4, 2])?;
    assert_eq!(&rt; thirds.n, 3);
    assert!(&rt; thirds.counts.as_slice() == [1, 2, 2, 1].as_slice());
    let halves = found(&rt, rt.alloc(), &texts, &walks, 5, &[0, 5, 5, 0])?;
    assert_eq!(&rt; halves.n, 1);
    assert!(&rt; halves.counts.as_slice() == [0, 1, 1, 0].as_slice());
    let most = found(
        &rt,
        rt.alloc(),
        &texts,
        &walks,
        262_144,
        &[1, 262_143, 262_143, 1],
    )?;
    assert_eq!(&rt; most.n, 262_144);
    assert!(&rt; most.counts.as_slice() == [1, 262_143, 262_143, 1].as_slice());
    let none = found(&rt, rt.alloc(), &[], &[], 7, &[])?;
    assert_eq!(&rt; none.n, 1);
    assert!(&rt; none.counts.is_empty());
    Ok(())
}

#[test]
fn too_many_sides_are_named_by_the_part(rt: HostRuntime) {
    let texts: [&[u8]; 4] = [b"a", b"a", b"A", b"A"];
    let walks: [&[u32]; 4] = [&[0, 2], &[0, 3], &[1, 2], &[1, 3]];
    let counts = [1, 262_144, 262_144, 1];
    let first = found(&rt, rt.alloc(), &texts, &walks, 262_145, &counts);
    let fault = PartsFault::Sides {
        part: 0,
        so_far: 1,
        next: 262_145,
    };
    assert_eq!(&rt; first.map(|found| found.n), Err(fault));
}

#[test]
fn a_later_part_may_lead_to_too_many_sides(rt: HostRuntime) {
    let texts: [&[u8]; 8] = [b"a", b"a", b"A", b"A", b"b", b"b", b"B", b"B"];
    let walks: [&[u32]; 8] = [
        &[0, 2],
        &[0, 3],
        &[1, 2],
        &[1, 3],
        &[4, 6],
        &[4, 7],
        &[5, 6],
        &[5, 7],
    ];
    // thousandths, and parts of 1001
    let counts = [
        1_001, 999_999, 999_999, 1_001, 1_000, 1_000_000, 1_000_000, 1_000,
    ];
    let later = found(&rt, rt.alloc(), &texts, &walks, 1_001_000, &counts);
    let fault = PartsFault::Sides {
        part: 4,
        so_far: 1_000,
        next: 1_001,
    };
    assert_eq!(&rt; later.map(|found| found.n), Err(fault));
}
