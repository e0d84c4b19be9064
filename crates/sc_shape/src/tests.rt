//! The components and boundaries of small surfaces, worked out by hand, and of one with 2^20 sides.

ghost use Rattle.std.specs.Prelude.{◌<◌, ◌^◌, length};

use super::*;
use sc_fatgraph::{Fatgraph, Side, Sides, SurfaceText, read_surface};
use std::alloc::{AllocError, Global};
use std::process::Abort;

/// The components of a surface text.
fn shape_of(rt: &impl Abort, alloc: Global, text: &[u8]) -> Result<Vec<Component>, AllocError> {
    let SurfaceText { chain, n, sides } = read_surface(alloc, text).expect(rt, "a text");
    let fatgraph = Fatgraph::check(alloc, chain, n, Sides::from_vec(sides)).expect(
        rt,
        "a fatgraph",
    );
    components(alloc, &fatgraph)
}

/// The numbers of components one after another: of each the least side, the sides, vertices, edges and boundaries, then
/// of each boundary the least side, the word and the degree.
fn numbers_of(alloc: Global, found: &[Component]) -> Result<Vec<u32>, AllocError> {
    let mut numbers = Vec::new(alloc);
    for component in found {
        numbers.push(component.least)?;
        numbers.push(component.sides)?;
        numbers.push(component.vertices)?;
        numbers.push(component.edges)?;
        for boundary in component.boundaries.as_slice() {
            numbers.push(boundary.least)?;
            numbers.push(boundary.word)?;
            numbers.push(boundary.degree)?;
        }
    }
    Ok(numbers)
}

#[test]
fn components_and_boundaries_of_small_surfaces(rt: HostRuntime) -> Result<(), AllocError> {
    let cases: [(&[u8], &[u32]); 6] = [
        (b"scallop surface 1\nwords 0\ncopies 1\nsides 0\nend\n", &[]),
        // twice round a commutator, with one vertex
        (
            b"scallop surface 1\nwords 1\nword 1 abAB\ncopies 2\nsides 8\nside 0 2 1\nside 1 3 2\nside 2 0 3\nside 3 1 4\nside 0 6 5\nside 1 7 6\nside 2 4 7\nside 3 5 0\nend\n",
            &[0, 8, 1, 4, 0, 0, 2],
        ),
        // an annulus
        (
            b"scallop surface 1\nwords 2\nword 1 a\nword 1 A\ncopies 1\nsides 2\nside 0 1 0\nside 1 0 1\nend\n",
            &[0, 2, 1, 1, 0, 0, 1, 1, 1, 1],
        ),
        // an annulus that runs twice along its words
        (
            b"scallop surface 1\nwords 2\nword 2 a\nword 2 A\ncopies 1\nsides 4\nside 0 2 1\nside 0 3 0\nside 1 0 3\nside 1 1 2\nend\n",
            &[0, 4, 2, 2, 0, 0, 2, 2, 1, 2],
        ),
        // a pair of pants, whose longest boundary comes first
        (
            b"scallop surface 1\nwords 3\nword 1 AB\nword 1 a\nword 1 b\ncopies 1\nsides 4\nside 0 2 1\nside 1 3 0\nside 2 0 2\nside 3 1 3\nend\n",
            &[0, 4, 1, 2, 0, 0, 1, 2, 1, 1, 3, 2, 1],
        ),
        // two annuli whose sides are mixed
        (
            b"scallop surface 1\nwords 4\nword 1 a\nword 1 b\nword 1 A\nword 1 B\ncopies 1\nsides 4\nside 0 2 0\nside 1 3 1\nside 2 0 2\nside 3 1 3\nend\n",
            &[0, 2, 1, 1, 0, 0, 1, 2, 2, 1, 1, 2, 1, 1, 1, 1, 1, 3, 3, 1],
        ),
    ];
    for (number, case) in cases.iter().enumerate() {
        let found = shape_of(&rt, rt.alloc(), case.0)?;
        let numbers = numbers_of(rt.alloc(), found.as_slice())?;
        assert_eq!(rt; numbers.as_slice(), case.1, "case {number}");
    }
    Ok(())
}

#[test]
fn euler_numbers(rt: HostRuntime) -> Result<(), AllocError> {
    let text =
        b"scallop surface 1\nwords 1\nword 1 abAB\ncopies 2\nsides 8\nside 0 2 1\nside 1 3 2\nside 2 0 3\nside 3 1 4\nside 0 6 5\nside 1 7 6\nside 2 4 7\nside 3 5 0\nend\n";
    for component in &shape_of(&rt, rt.alloc(), text)? {
        assert_eq!(rt; euler_of(component), -3);
    }
    Ok(())
}

/// Half of the sides of the greatest surfaces.
const HALF: u32 = 524_288;

/// A surface over 2^19 copies of `a` and `A`: the sides of each word are joined to one boundary, or are boundaries of
/// their own.
fn many_sides(rt: &impl Abort, alloc: Global, joined: bool) -> Result<Fatgraph, AllocError> {
    let text = b"scallop surface 1\nwords 2\nword 1 a\nword 1 A\ncopies 1\nsides 0\nend\n";
    let chain = read_surface(alloc, text).expect(rt, "a text").chain;
    let mut sides = Sides::new(alloc);
    for label in 0..2 {
        for place in 0..HALF {
            let next = if joined { (place + 1) % HALF } else { place };
            sides.push(Side {
                label,
                mate: place + HALF * (1 - label),
                next: next + HALF * label,
            })?;
        }
    }
    assert!(rt; sides.len() <= 1_048_576);
    Ok(Fatgraph::check(alloc, chain, HALF, sides).expect(rt, "a fatgraph"))
}

#[test]
fn components_of_a_million_sides(rt: HostRuntime) -> Result<(), AllocError> {
    let alloc = rt.alloc();
    let one = components(alloc, &many_sides(&rt, alloc, true)?)?;
    let numbers = numbers_of(alloc, one.as_slice())?;
    let want = [0, 1_048_576, 2, 524_288, 0, 0, 524_288, 524_288, 1, 524_288];
    assert_eq!(rt; numbers.as_slice(), want.as_slice());
    let many = components(alloc, &many_sides(&rt, alloc, false)?)?;
    assert_eq!(rt; many.len(), 524_288);
    for component in &many {
        assert_eq!(rt; component.sides, 2);
        assert_eq!(rt; component.boundaries.len(), 2);
    }
    Ok(())
}
