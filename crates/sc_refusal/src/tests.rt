//! The texts of the worked chain of two commutators, and one of each other kind.

use super::*;
use sc_certificate::Certificate;
use sc_chain::{Pivot, Polygon};
use sc_fraction::Frac;
use sc_rows::{Place, WideAt};
use sc_weight::Level;
use sc_whole::{Op, Wide};
use std::alloc::{AllocError, Global};
use std::test::Fail;

const FRONT: &[u8] =
    b"scallop certificate 1\nwords 2\nword 1 abAB\nword 1 cdCD\nvalue 0/1\ncopies 1\nsides 0\nscale 1\n\
    base 0\nbase 0\npair 0 2 0\npair 1 3 0\npair 4 6 0\npair 5 7 0\n\
    from 0 - - - - - - - -\nfrom 1 - - - - - - - -\nfrom 2 - - - - - - - -\nfrom 3 - - - - - - - -\n\
    from 4 - - - - - - - -\nfrom 5 - - - - - - - -\nfrom 6 - - - - - - - -\nfrom 7 - - - - - - - -\npivots 2\n";

const FIRST_WORD_FIRST: &[u8] = b"pivot 4 0 3 2 1\npivot 5 4 7 6 5\nend\n";

const SECOND_WORD_FIRST: &[u8] = b"pivot 5 4 7 6 5\npivot 4 0 3 2 1\nend\n";

/// A certificate over the chain of the two commutators with these pivots.
fn certificate(alloc: Global, pivots: &[u8]) -> Result<Option<Certificate>, AllocError> {
    let mut text = Vec::from_slice(alloc, FRONT)?;
    text.extend_from_slice(pivots)?;
    Ok(Certificate::read(alloc, text.as_slice()).ok())
}

/// The pivots but the last, and the polygon of the last.
fn split(journal: &[Pivot]) -> Option<(&[Pivot], &Polygon)> {
    match journal {
        [before @ .., last] => Some((before, &last.polygon)),
        [] => None,
    }
}

#[test]
fn shows_the_polygon_that_improves(rt: HostRuntime) -> Result<(), Fail> {
    let cases = [
        (
            FIRST_WORD_FIRST,
            "scallop refused budget\nwords 2\nword 1 abAB\nword 1 cdCD\npivots 1\npivot 4 0 3 2 1\nimproving 4 7 6 5\nend\n",
        ),
        (
            SECOND_WORD_FIRST,
            "scallop refused budget\nwords 2\nword 1 abAB\nword 1 cdCD\npivots 1\npivot 5 4 7 6 5\nimproving 0 3 2 1\nend\n",
        ),
    ];
    for (pivots, expected) in cases {
        let read = certificate(rt.alloc(), pivots)?;
        assert!(rt; read.is_some());
        if let Some(read) = read {
            let parts = split(read.journal.as_slice());
            assert!(rt; parts.is_some());
            if let Some((journal, improving)) = parts {
                let text = budget_text(rt.alloc(), &read.chain, journal, improving)?;
                assert_eq!(rt; text.as_slice(), expected.as_bytes());
            }
        }
    }
    Ok(())
}

/// An operation without walk, column and row.
fn bare(place: Place, first: u32, second: u32) -> WideAt {
    WideAt {
        place,
        first,
        second,
        wide: Wide {
            op: Op::Mul,
            x: 170_141_183_460_469_231_731_687_303_715_884_105_727,
            y: -2,
        },
        walk: None,
        entering: None,
        leaving: None,
    }
}

#[test]
fn names_the_operation(rt: HostRuntime) -> Result<(), Fail> {
    let bulk = Level::Bulk;
    let fine = Level::Fine;
    let walk = || Vec::from_slice(rt.alloc(), &[4, 7, 4]);
    let entering = || Vec::from_slice(rt.alloc(), &[4, 7, 6, 5]);
    let cases = [
        (bare(Place::LiftMul, 0, 0), "place lift-mul"),
        (bare(Place::LiftSize, 5, 0), "place lift-size 5"),
        (bare(Place::ValueAdd, 3, 1), "place value-add 3 1"),
        (
            bare(Place::TurnPrice { level: fine }, 7, 0),
            "place turn-price fine 7",
        ),
        (
            bare(Place::StepPrice { level: bulk }, 7, 4),
            "place step-price bulk 7 4",
        ),
        (
            WideAt {
                walk: Some(walk()?),
                ..bare(Place::WalkSum { level: bulk }, 0, 0)
            },
            "walk 4 7 4\nplace walk-sum bulk",
        ),
        (
            WideAt {
                entering: Some(entering()?),
                ..bare(Place::AlongMul, 2, 3)
            },
            "entering 4 7 6 5\nplace along-mul 2 3",
        ),
        (
            WideAt {
                entering: Some(entering()?),
                leaving: Some(4),
                ..bare(Place::RowScale, 1, 0)
            },
            "entering 4 7 6 5\nleaving 4\nplace row-scale 1",
        ),
    ];
    let read = certificate(rt.alloc(), SECOND_WORD_FIRST)?;
    assert!(rt; read.is_some());
    if let Some(read) = read {
        for (at, lines) in &cases {
            let text = wide_text(rt.alloc(), &read.chain, &[], at)?;
            let expected = format!(in rt.alloc();
                "scallop refused wide\nwords 2\nword 1 abAB\nword 1 cdCD\npivots 0\n{lines}\n\
                operands 170141183460469231731687303715884105727 -2\nend\n"
            )?;
            assert_eq!(rt; text.as_slice(), expected.as_bytes());
        }
    }
    Ok(())
}

#[test]
fn shows_the_part_with_too_many_sides(rt: HostRuntime) -> Result<(), Fail> {
    let read = certificate(rt.alloc(), FIRST_WORD_FIRST)?;
    let value = Frac::new(3, 14).ok();
    assert!(rt; read.is_some() && value.is_some());
    if let (Some(read), Some(value)) = (read, value) {
        let parts = split(read.journal.as_slice());
        assert!(rt; parts.is_some());
        if let Some((journal, part)) = parts {
            let text = sides_text(rt.alloc(), &read.chain, journal, part, &value, 100_000, 7)?;
            let expected =
                "scallop refused sides\nwords 2\nword 1 abAB\nword 1 cdCD\npivots 1\npivot 4 0 3 2 1\n\
                part 4 7 6 5\nvalue 3/14\nso-far 100000\nnext 7\nlength 8\nend\n";
            assert_eq!(rt; text.as_slice(), expected.as_bytes());
        }
    }
    Ok(())
}
