//! The tables of lists whose least totals were worked out by hand.

use sc_certificate::Tables;
use sc_chain::Pairs;
use sc_prices::{Certificate, vouch};
use sc_solve::tables_of;
use std::alloc::{AllocError, Global};
use std::test::Fail;

/// A text in parts.
type Parts = &'static [&'static [u8]];

const OF_COMMUTATOR: Parts = &[
    b"scallop certificate 1\nwords 1\nword 1 abAB\nvalue 1/2\ncopies 1\nsides 0\n",
    b"scale 1\nbase 1\npair 0 2 -5\npair 1 3 -5\n",
    b"from 0 0 -5 -10 -5\nfrom 1 6 0 -4 1\nfrom 2 11 5 0 6\nfrom 3 6 0 -5 0\npivots 0\nend\n",
];

const OF_ANNULUS: Parts = &[
    b"scallop certificate 1\nwords 2\nword 1 a\nword 1 A\nvalue 0/1\ncopies 1\nsides 0\n",
    b"scale 1\nbase -3\nbase 4\npair 0 1 -3\nfrom 0 0 1\nfrom 1 0 0\npivots 0\nend\n",
];

const OF_LETTER_APART: Parts = &[
    b"scallop certificate 1\nwords 3\nword 1 a\nword 1 A\nword 1 b\nvalue 0/1\ncopies 1\nsides 0\n",
    b"scale 2\nbase 1\nbase 1\nbase 1\npair 0 1 0\n",
    b"from 0 0 1 -\nfrom 1 1 0 -\nfrom 2 - - 0\npivots 0\nend\n",
];

const OF_NOTHING: Parts = &[
    b"scallop certificate 1\nwords 0\nvalue 0/1\ncopies 1\nsides 0\nscale 1\npivots 0\nend\n",
];

/// The text of these parts.
fn text_of(alloc: Global, parts: &[&[u8]]) -> Result<Vec<u8>, AllocError> {
    let mut text = Vec::new(alloc);
    for part in parts {
        text.extend_from_slice(part)?;
    }
    Ok(text)
}

/// The stated tables, and those of the list, where the stated ones vouch for it.
fn both_tables(alloc: Global, text: &[u8]) -> Result<(Tables, Tables), Fail> {
    let Certificate {
        chain,
        list,
        tables,
        ..
    } = Certificate::read(alloc, text)?;
    let pairs = Pairs::of(alloc, &chain)?;
    match vouch(&chain, &pairs, &list, &tables) {
        Ok(()) => {
            let made = tables_of(alloc, &chain, &pairs, &list)?;
            Ok((tables, made))
        }
        Err(_) => Err(Fail::from("the stated tables don't vouch")),
    }
}

#[test]
fn tables_hold_the_least_totals(rt: HostRuntime) -> Result<(), Fail> {
    for parts in [OF_COMMUTATOR, OF_ANNULUS, OF_LETTER_APART, OF_NOTHING] {
        let text = text_of(rt.alloc(), parts)?;
        let (stated, made) = both_tables(rt.alloc(), text.as_slice())?;
        assert_eq!(rt; made.len(), stated.len());
        for start in 0..stated.len() {
            for place in 0..stated.len() {
                assert_eq!(rt;
                    made.entry(start, place),
                    stated.entry(start, place),
                    "from {start} to {place}"
                );
            }
        }
    }
    Ok(())
}
