//! Inputs near the limits: a body that gives up where an input isn't small meets every clause, and is refused here.

use sc_app::{Status, What, run};
use sc_chain::Kind;
use sc_outside::{MemorySink, MemorySource};
use sc_whole::print_decimal;
use std::alloc::{AllocError, Global};
use std::test::Fail;

/// The status of a call on this input, and what `out` took.
fn answer(alloc: Global, word: &str, input: Vec<u8>) -> Result<(Status, Vec<u8>), AllocError> {
    let mut words = Vec::new(alloc);
    words.push(String::from_str(alloc, word)?)?;
    let mut source = MemorySource::new(input, 1 << 16, Vec::new(alloc));
    let mut out = MemorySink::new(alloc, 1000, 100, Vec::new(alloc))?;
    let mut notes = MemorySink::new(alloc, 1000, 100, Vec::new(alloc))?;
    let status = run(alloc, &words, &mut source, &mut out, &mut notes);
    Ok((status, out.taken().to_vec(alloc)?))
}

/// Appends a line of a name and numbers.
fn append_line(text: &mut Vec<u8>, name: &[u8], numbers: &[i64]) -> Result<(), AllocError> {
    text.extend_from_slice(name)?;
    for number in numbers {
        text.push(b' ')?;
        print_decimal(i128::from(*number), text)?;
    }
    text.push(b'\n')?;
    Ok(())
}

/// Appends the lines of `copies` times `weight` annuli between the words `a` and `A` with that weight.
fn append_annuli(text: &mut Vec<u8>, copies: u16, weight: u16) -> Result<(), AllocError> {
    let annuli = u32::from(copies) * u32::from(weight);
    append_line(text, b"copies", &[i64::from(copies)])?;
    append_line(text, b"sides", &[i64::from(annuli) * 2])?;
    for annulus in 0..annuli {
        let side = i64::from(annulus) * 2;
        append_line(text, b"side", &[0, side + 1, side])?;
        append_line(text, b"side", &[1, side, side + 1])?;
    }
    Ok(())
}

/// Appends the words `a` and `A` with a weight.
fn append_opposite_words(text: &mut Vec<u8>, weight: u16) -> Result<(), AllocError> {
    text.extend_from_slice(b"words 2\nword ")?;
    print_decimal(i128::from(weight), text)?;
    text.extend_from_slice(b" a\nword ")?;
    print_decimal(i128::from(weight), text)?;
    text.extend_from_slice(b" A\n")?;
    Ok(())
}

fn surface_of_annuli(alloc: Global, copies: u16, weight: u16) -> Result<Vec<u8>, AllocError> {
    let mut text = Vec::from_slice(alloc, b"scallop surface 1\n")?;
    append_opposite_words(&mut text, weight)?;
    append_annuli(&mut text, copies, weight)?;
    text.extend_from_slice(b"end\n")?;
    Ok(text)
}

fn certificate_of_annuli(alloc: Global, copies: u16, weight: u16) -> Result<Vec<u8>, AllocError> {
    let mut text = Vec::from_slice(alloc, b"scallop certificate 1\n")?;
    append_opposite_words(&mut text, weight)?;
    text.extend_from_slice(b"value 0/1\n")?;
    append_annuli(&mut text, copies, weight)?;
    text.extend_from_slice(
        b"scale 1\nbase -3\nbase 4\npair 0 1 -3\nfrom 0 0 1\nfrom 1 0 0\npivots 1\npivot 2 0 1\nend\n",
    )?;
    Ok(text)
}

#[test]
fn bears_a_million_sides(rt: HostRuntime) -> Result<(), Fail> {
    let small = surface_of_annuli(rt.alloc(), 2, 1000)?;
    let (status, out) = answer(rt.alloc(), "surface", small)?;
    assert_eq!(rt; status, Status::Done);
    assert_eq!(rt;
        out.as_slice(),
        b"vertices 2000\nedges 2000\neuler 0\nfraction 0/1\n".as_slice()
    );

    for word in ["shape", "svg"] {
        let small = surface_of_annuli(rt.alloc(), 2, 1000)?;
        assert_eq!(rt; answer(rt.alloc(), word, small)?.0, Status::Done, "{word}");
    }

    let great = certificate_of_annuli(rt.alloc(), 500, 1000)?;
    let (status, out) = answer(rt.alloc(), "check", great)?;
    assert_eq!(rt; status, Status::Done);
    assert_eq!(rt; out.as_slice(), b"optimal 0/1\n".as_slice());
    Ok(())
}

/// The price of the pair of the positions `p` below `q` of words `abAB`, where their letters are inverse.
fn pair_price(p: u8, q: u8) -> Option<i64> {
    match (p % 4, q % 4) {
        (0, 2) | (1, 3) => Some(-5),
        (2, 0) | (3, 1) => Some(5),
        _ => None,
    }
}

/// The least total from the position `s` to `i` of words `abAB`, by the places in their words.
fn entry(s: u8, i: u8) -> i64 {
    if s == i {
        return 0;
    }
    match (s % 4, i % 4) {
        (0, 2) => -10,
        (0, 1) | (0, 3) | (3, 2) => -5,
        (1, 2) => -4,
        (3, 1) => 0,
        (2, 1) => 5,
        (1, 0) | (2, 3) | (3, 0) => 6,
        (2, 0) => 11,
        _ => 1,
    }
}

/// Appends the sides of a torus for each of sixteen words `abAB`.
fn append_tori(text: &mut Vec<u8>) -> Result<(), AllocError> {
    for torus in 0..16u8 {
        let first = i64::from(torus) * 4;
        append_line(text, b"side", &[first, first + 2, first + 3])?;
        append_line(text, b"side", &[first + 3, first + 3, first])?;
        append_line(text, b"side", &[first + 2, first, first + 1])?;
        append_line(text, b"side", &[first + 1, first + 1, first + 2])?;
    }
    Ok(())
}

/// Appends the price list of sixteen words `abAB` and the tables that vouch for it.
fn append_list(text: &mut Vec<u8>) -> Result<(), AllocError> {
    append_line(text, b"scale", &[1])?;
    for _ in 0..16 {
        append_line(text, b"base", &[1])?;
    }
    for p in 0..64u8 {
        for q in p + 1..64u8 {
            if let Some(price) = pair_price(p, q) {
                append_line(text, b"pair", &[i64::from(p), i64::from(q), price])?;
            }
        }
    }
    Ok(())
}

fn append_tables(text: &mut Vec<u8>) -> Result<(), AllocError> {
    for s in 0..64u8 {
        text.extend_from_slice(b"from ")?;
        print_decimal(i128::from(s), text)?;
        for i in 0..64u8 {
            text.push(b' ')?;
            print_decimal(i128::from(entry(s, i)), text)?;
        }
        text.push(b'\n')?;
    }
    Ok(())
}

/// Appends a journal of one pivot, whose polygon goes through all positions.
fn append_long_pivot(text: &mut Vec<u8>) -> Result<(), AllocError> {
    text.extend_from_slice(b"pivots 1\npivot 527")?;
    for word in 0..16u8 {
        for place in [0, 3, 2, 1] {
            text.push(b' ')?;
            print_decimal(i128::from(word) * 4 + place, text)?;
        }
    }
    text.push(b'\n')?;
    Ok(())
}

#[test]
fn bears_a_polygon_through_64_positions(rt: HostRuntime) -> Result<(), Fail> {
    let mut text = Vec::from_slice(rt.alloc(), b"scallop certificate 1\nwords 16\n")?;
    for _ in 0..16 {
        text.extend_from_slice(b"word 1 abAB\n")?;
    }
    text.extend_from_slice(b"value 8/1\ncopies 1\nsides 64\n")?;
    append_tori(&mut text)?;
    append_list(&mut text)?;
    append_tables(&mut text)?;
    append_long_pivot(&mut text)?;
    text.extend_from_slice(b"end\n")?;
    let (status, out) = answer(rt.alloc(), "check", text)?;
    assert_eq!(rt; status, Status::Done);
    assert_eq!(rt; out.as_slice(), b"optimal 8/1\n".as_slice());
    Ok(())
}

/// A chain of eight annuli between the words `a` and `A`.
const EIGHT_ANNULI: &[u8] = b"a\na\na\na\na\na\na\na\nA\nA\nA\nA\nA\nA\nA\nA\n";

/// Up to the first list, the fan of that chain taken twice. In each direction annuli bound the chain, so all values are
/// 0. A list that is tight at two directions of a quadrant is so in the whole quadrant, which therefore is one cone.
const FAN_OF_ANNULI: &[u8] = b"scallop fan 1\nfirst 16\n\
    word 1 a\nword 1 a\nword 1 a\nword 1 a\nword 1 a\nword 1 a\nword 1 a\nword 1 a\n\
    word 1 A\nword 1 A\nword 1 A\nword 1 A\nword 1 A\nword 1 A\nword 1 A\nword 1 A\n\
    second 16\n\
    word 1 a\nword 1 a\nword 1 a\nword 1 a\nword 1 a\nword 1 a\nword 1 a\nword 1 a\n\
    word 1 A\nword 1 A\nword 1 A\nword 1 A\nword 1 A\nword 1 A\nword 1 A\nword 1 A\n\
    corners 3\ncorner 0 -1 0/1\ncorner 1 0 0/1\ncorner 0 1 0/1\nedges 2\nedge 0\nscale ";

#[test]
fn bears_a_ball_of_32_words(rt: HostRuntime) -> Result<(), Fail> {
    let mut input = Vec::from_slice(rt.alloc(), EIGHT_ANNULI)?;
    input.extend_from_slice(b"/\n")?;
    input.extend_from_slice(EIGHT_ANNULI)?;
    let (status, fan) = answer(rt.alloc(), "ball", input)?;
    assert_eq!(rt; status, Status::Done);
    assert!(rt; fan.as_slice().starts_with(FAN_OF_ANNULI));
    Ok(())
}

#[test]
fn reads_to_its_limit_and_no_further(rt: HostRuntime) -> Result<(), Fail> {
    let ended = Status::Malformed {
        line: 1,
        kind: Kind::Ended,
    };
    for (size, status) in [
        (67_108_864, ended),
        (67_108_865, Status::Large(What::Bytes)),
    ] {
        for word in ["surface", "check"] {
            let input = vec![in rt.alloc(); b'x'; size]?;
            assert_eq!(rt; answer(rt.alloc(), word, input)?.0, status, "{word} {size}");
        }
    }
    Ok(())
}
