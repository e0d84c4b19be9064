//! Drawings of small surfaces, worked out by hand.

use sc_fatgraph::{Fatgraph, Side, Sides, SurfaceText, read_surface};
use sc_svg::draw;
use std::alloc::{AllocError, Global};
use std::process::Abort;

/// The drawing of a surface text.
fn drawing_of(rt: &impl Abort, alloc: Global, text: &[u8]) -> Result<Vec<u8>, AllocError> {
    let SurfaceText { chain, n, sides } = read_surface(alloc, text).expect(rt, "a text");
    let fatgraph = Fatgraph::check(alloc, chain, n, Sides::from_vec(sides)).expect(
        rt,
        "a fatgraph",
    );
    draw(alloc, &fatgraph)
}

#[test]
fn drawings_of_small_surfaces(rt: HostRuntime) -> Result<(), AllocError> {
    let cases: [(&[u8], &[u8]); 4] = [
        (
            b"scallop surface 1\nwords 0\ncopies 1\nsides 0\nend\n",
            b"<svg xmlns=\"http://www.w3.org/2000/svg\" viewBox=\"0 0 20 44\">\n</svg>\n",
        ),
        // an annulus with one vertex
        (
            b"scallop surface 1\nwords 2\nword 1 a\nword 1 A\ncopies 1\nsides 2\nside 0 1 0\nside 1 0 1\nend\n",
            b"<svg xmlns=\"http://www.w3.org/2000/svg\" viewBox=\"0 0 80 74\">\n<line x1=\"20\" y1=\"50\" x2=\"40\" y2=\"50\" stroke=\"black\" stroke-width=\"4\"/>\n<path d=\"M 20 50 A 10 10 0 0 1 40 50\" fill=\"none\" stroke=\"black\"/>\n<text x=\"20\" y=\"66\" font-size=\"12\">a</text>\n<text x=\"40\" y=\"66\" font-size=\"12\">A</text>\n</svg>\n",
        ),
        // a torus with one vertex, whose sides stand in the order 0 3 2 1
        (
            b"scallop surface 1\nwords 1\nword 1 abAB\ncopies 1\nsides 4\nside 0 2 1\nside 1 3 2\nside 2 0 3\nside 3 1 0\nend\n",
            b"<svg xmlns=\"http://www.w3.org/2000/svg\" viewBox=\"0 0 120 94\">\n<line x1=\"20\" y1=\"70\" x2=\"80\" y2=\"70\" stroke=\"black\" stroke-width=\"4\"/>\n<path d=\"M 20 70 A 20 20 0 0 1 60 70\" fill=\"none\" stroke=\"black\"/>\n<path d=\"M 40 70 A 20 20 0 0 1 80 70\" fill=\"none\" stroke=\"black\"/>\n<text x=\"20\" y=\"86\" font-size=\"12\">a</text>\n<text x=\"40\" y=\"86\" font-size=\"12\">B</text>\n<text x=\"60\" y=\"86\" font-size=\"12\">A</text>\n<text x=\"80\" y=\"86\" font-size=\"12\">b</text>\n</svg>\n",
        ),
        // an annulus with two vertices, 0 3 and 1 2
        (
            b"scallop surface 1\nwords 2\nword 2 a\nword 2 A\ncopies 1\nsides 4\nside 0 2 1\nside 0 3 0\nside 1 0 3\nside 1 1 2\nend\n",
            b"<svg xmlns=\"http://www.w3.org/2000/svg\" viewBox=\"0 0 140 104\">\n<line x1=\"20\" y1=\"80\" x2=\"40\" y2=\"80\" stroke=\"black\" stroke-width=\"4\"/>\n<line x1=\"80\" y1=\"80\" x2=\"100\" y2=\"80\" stroke=\"black\" stroke-width=\"4\"/>\n<path d=\"M 20 80 A 40 40 0 0 1 100 80\" fill=\"none\" stroke=\"black\"/>\n<path d=\"M 40 80 A 20 20 0 0 1 80 80\" fill=\"none\" stroke=\"black\"/>\n<text x=\"20\" y=\"96\" font-size=\"12\">a</text>\n<text x=\"40\" y=\"96\" font-size=\"12\">A</text>\n<text x=\"80\" y=\"96\" font-size=\"12\">a</text>\n<text x=\"100\" y=\"96\" font-size=\"12\">A</text>\n</svg>\n",
        ),
    ];
    for (number, case) in cases.iter().enumerate() {
        let bytes = drawing_of(&rt, rt.alloc(), case.0)?;
        assert_eq!(rt; bytes.as_slice(), case.1, "case {number}");
    }
    Ok(())
}

/// Half of the sides of the greatest surfaces.
const HALF: u32 = 524_288;

/// A surface over 2^19 copies of `a` and `A`, of 2^19 annuli with one vertex each.
fn many_annuli(rt: &impl Abort, alloc: Global) -> Result<Fatgraph, AllocError> {
    let text = b"scallop surface 1\nwords 2\nword 1 a\nword 1 A\ncopies 1\nsides 0\nend\n";
    let chain = read_surface(alloc, text).expect(rt, "a text").chain;
    let mut sides = Sides::new(alloc);
    for label in 0..2 {
        for place in 0..HALF {
            sides.push(Side {
                label,
                mate: place + HALF * (1 - label),
                next: place + HALF * label,
            })?;
        }
    }
    assert!(rt; sides.len() <= 1_048_576);
    Ok(Fatgraph::check(alloc, chain, HALF, sides).expect(rt, "a fatgraph"))
}

#[test]
fn a_drawing_of_a_million_sides(rt: HostRuntime) -> Result<(), AllocError> {
    let bytes = draw(rt.alloc(), &many_annuli(&rt, rt.alloc())?)?;
    let front =
        b"<svg xmlns=\"http://www.w3.org/2000/svg\" viewBox=\"0 0 31457300 15728684\">\n<line x1=\"20\" y1=\"15728660\" x2=\"40\" y2=\"15728660\" ";
    let back = b"<text x=\"31457260\" y=\"15728676\" font-size=\"12\">A</text>\n</svg>\n";
    assert!(rt; bytes.as_slice().starts_with(front));
    assert!(rt; bytes.as_slice().ends_with(back));
    Ok(())
}
