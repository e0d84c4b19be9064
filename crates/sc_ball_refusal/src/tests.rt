//! A text of each kind.

ghost use Rattle.std.specs.Prelude.{◌<◌, ◌≤◌, ◌^◌, length, IfOk};
ghost use Rattle.std.specs.List.{All};
ghost use Rattle.sc_theory.specs.Chains.{positions, weighted_length};
ghost use Rattle.sc_chain.specs.Faults.{AreGenerators};
ghost use Rattle.sc_words.specs.declared.limits.TheConstants.{GENERATORS};

use super::*;
use sc_certificate::PriceList;
use sc_chain::{Chain, Pivot, Polygon, Word, letters_of};
use sc_cone::{Direction, Quadrant};
use sc_crossing::{CrossPlace, Reached};
use sc_fraction::Frac;
use sc_rows::{Place, WideAt};
use sc_whole::{Op, Wide};
use std::alloc::{AllocError, Global};
use std::test::Fail;

/// A chain of one word of at most 10 letters, with the weight 1.
fn chain_of(alloc: Global, text: &[u8]) -> Result<Chain, Fail>
    ensures words { IfOk result (λ c. length c ≤ 10) }
    ensures positions { IfOk result (λ c. positions c ≤ 10) }
    ensures light { IfOk result (λ c. weighted_length c ≤ 10) }
{
    let letters = letters_of(alloc, text)?;
    if letters.len() > 10 {
        return Err(Fail::from("a long word"));
    }
    let mut words = Vec::new(alloc);
    words.push((1, Word::from_letters(letters)))?;
    let Ok(chain) = Chain::of_reduced(alloc, words) else {
        return Err(Fail::from("no chain"));
    };
    if chain.words() <= 10 && chain.positions() <= 10 && chain.length() <= 10 {
        Ok(chain)
    } else {
        Err(Fail::from("no small chain"))
    }
}

fn polygon_of(alloc: Global, chain: &Chain, walk: &[u32]) -> Result<Polygon, Fail> {
    match Polygon::of(chain, Vec::from_slice(alloc, walk)?) {
        Some(polygon) => Ok(polygon),
        None => Err(Fail::from("no polygon")),
    }
}

/// A direction with a list of two words and three pairs.
fn reached_at(alloc: Global, s: i64, t: i64, pair: &[i128]) -> Result<Reached, Fail> {
    let base = Vec::from_slice(alloc, &[1, -2])?;
    match PriceList::new(6, base, Vec::from_slice(alloc, pair)?) {
        Some(list) => Ok(Reached {
            direction: Direction { s, t },
            list,
        }),
        None => Err(Fail::from("no list")),
    }
}

#[test]
fn a_direction_without_a_search(rt: HostRuntime) -> Result<(), Fail> {
    let alloc = rt.alloc();
    let (first, second) = (chain_of(alloc, b"abAB")?, chain_of(alloc, b"cdCD")?);
    let search = Search {
        quadrant: Quadrant::Lower,
        first: &first,
        second: &second,
        reached: &[],
    };
    let mut journal = Vec::new(alloc);
    journal.push(Pivot {
        row: 2,
        polygon: polygon_of(alloc, &first, &[0, 3, 2, 1])?,
    })?;
    let improving = polygon_of(alloc, &second, &[0, 3, 2, 1])?;
    let direction = Direction { s: 2, t: -1 };
    let text = budget_text(alloc, &search, direction, journal.as_slice(), &improving)?;
    let expected =
        "scallop refused budget\nsearch 0\ndirection 2 -1\nwords 2\nword 2 abAB\nword 1 dcDC\npivots 1\n\
        pivot 2 0 3 2 1\nimproving 0 3 2 1\nend\n";
    assert_eq!(rt; text.as_slice(), expected.as_bytes());
    let value = Frac::new(3, 14)?;
    let text = sides_text(
        alloc,
        &search,
        Direction { s: 1, t: 0 },
        &[],
        &improving,
        &value,
        100_000,
        7,
    )?;
    let expected =
        "scallop refused sides\nsearch 0\ndirection 1 0\nwords 2\nword 1 abAB\nword 0 dcDC\npivots 0\n\
        part 0 3 2 1\nvalue 3/14\nso-far 100000\nnext 7\nlength 4\nend\n";
    assert_eq!(rt; text.as_slice(), expected.as_bytes());
    let at = WideAt {
        place: Place::LiftMul,
        first: 0,
        second: 0,
        wide: Wide {
            op: Op::Mul,
            x: 7,
            y: -8,
        },
        walk: None,
        entering: None,
        leaving: None,
    };
    let text = wide_text(alloc, &search, Direction { s: 0, t: -1 }, &[], &at)?;
    let expected =
        "scallop refused wide\nsearch 0\ndirection 0 -1\nwords 2\nword 0 abAB\nword 1 dcDC\npivots 0\n\
        place lift-mul\noperands 7 -8\nend\n";
    assert_eq!(rt; text.as_slice(), expected.as_bytes());
    Ok(())
}

#[test]
fn two_neighbours_of_a_search(rt: HostRuntime) -> Result<(), Fail> {
    let alloc = rt.alloc();
    let (first, second) = (chain_of(alloc, b"a")?, chain_of(alloc, b"ccdCD")?);
    let mut reached = Vec::new(alloc);
    reached.push(reached_at(alloc, 0, -1, &[7, 8, 9])?)?;
    reached.push(reached_at(alloc, 1, 0, &[-7, -8, -9])?)?;
    let (from, to) = (Direction { s: 0, t: -1 }, Direction { s: 1, t: 0 });
    let (x, y) = (Frac::new(-11, 3)?, Frac::new(4, 5)?);
    let lower = Search {
        quadrant: Quadrant::Lower,
        first: &first,
        second: &second,
        reached: reached.as_slice(),
    };
    let text = cross_text(alloc, &lower, from, to, CrossPlace::Over, &x, &y)?;
    let expected = "scallop refused wide\nsearch 2\n\
        at 0 -1\nscale 6\nbase 1\nbase -2\npair 1 3 7\npair 2 4 8\npair 2 5 9\n\
        at 1 0\nscale 6\nbase 1\nbase -2\npair 1 3 -7\npair 2 4 -8\npair 2 5 -9\n\
        ends 0 -1 1 0\nplace cross-over\noperands -11/3 4/5\nend\n";
    assert_eq!(rt; text.as_slice(), expected.as_bytes());
    let upper = Search {
        quadrant: Quadrant::Upper,
        reached: &reached.as_slice()[1..],
        ..lower
    };
    let text = length_text(
        alloc,
        &upper,
        to,
        from,
        7,
        -170_141_183_460_469_231_731_687_303_715_884_105_728,
    )?;
    let expected = "scallop refused length\nsearch 1\n\
        at 1 0\nscale 6\nbase 1\nbase -2\npair 1 4 -7\npair 2 4 -8\npair 3 5 -9\n\
        ends 1 0 0 -1\nbetween 7 -170141183460469231731687303715884105728\nend\n";
    assert_eq!(rt; text.as_slice(), expected.as_bytes());
    Ok(())
}
