//! Certificates that were worked out by hand, and what they are judged to be.

use super::*;
use sc_fatgraph::FlawKind;
use std::alloc::{AllocError, Global};
use std::test::Fail;

/// A text in parts.
type Parts = &'static [&'static [u8]];

const COMMUTATOR: &[u8] = b"scallop certificate 1\nwords 1\nword 1 abAB\n";

const HALF: &[u8] = b"value 1/2\n";

const THREE_QUARTERS: &[u8] = b"value 3/4\n";

const TORUS: &[u8] = b"copies 1\nsides 4\nside 0 2 3\nside 3 3 0\nside 2 0 1\nside 1 1 2\n";

const OWN_MATE: &[u8] = b"copies 1\nsides 4\nside 0 0 3\nside 3 3 0\nside 2 0 1\nside 1 1 2\n";

const TWICE_ROUND: &[u8] = b"copies 2\nsides 8\nside 0 2 1\nside 1 3 2\nside 2 0 3\nside 3 1 4\n\
    side 0 6 5\nside 1 7 6\nside 2 4 7\nside 3 5 0\n";

const LIST: &[u8] = b"scale 1\nbase 1\npair 0 2 -5\npair 1 3 -5\n";

const FIRST_TABLE: &[u8] = b"from 0 0 -5 -10 -5\n";

const GREATER_TABLE: &[u8] = b"from 0 0 -5 -9 -5\n";

const OTHER_TABLES: &[u8] = b"from 1 6 0 -4 1\nfrom 2 11 5 0 6\nfrom 3 6 0 -5 0\n";

const JOURNAL: &[u8] = b"pivots 1\npivot 2 0 3 2 1\n";

const END: &[u8] = b"end\n";

const OF_COMMUTATOR: Parts = &[
    COMMUTATOR,
    HALF,
    TORUS,
    LIST,
    FIRST_TABLE,
    OTHER_TABLES,
    JOURNAL,
    END,
];

const OF_ANNULUS: Parts = &[
    b"scallop certificate 1\nwords 2\nword 1 a\nword 1 A\nvalue 0/1\ncopies 1\nsides 2\n",
    b"side 0 1 0\nside 1 0 1\nscale 1\nbase -3\nbase 4\npair 0 1 -3\nfrom 0 0 1\nfrom 1 0 0\n",
    b"pivots 1\npivot 2 0 1\nend\n",
];

const OF_NOTHING: Parts = &[
    b"scallop certificate 1\nwords 0\nvalue 0/1\ncopies 1\nsides 0\nscale 1\npivots 0\nend\n",
];

/// The text of these parts.
fn text_of(alloc: Global, parts: &[&[u8]]) -> Result<Vec<u8>, AllocError> {
    let mut text = Vec::new(alloc);
    for part in parts {
        text.extend_from_slice(part)?;
    }
    Ok(text)
}

/// The value of a certificate whose conditions all hold, else the first that fails.
fn judged(alloc: Global, parts: &[&[u8]]) -> Result<Result<(i128, i128), Condition>, Fail> {
    let text = text_of(alloc, parts)?;
    let certificate = Certificate::read(alloc, text.as_slice())?;
    Ok(match judge(alloc, certificate)? {
        Verdict::Optimal(value) => Ok((value.num(), value.den())),
        Verdict::Rejected(condition) => Err(condition),
    })
}

#[test]
fn judges_worked_certificates(rt: HostRuntime) -> Result<(), Fail> {
    let step = TableFlaw::Step {
        start: 0,
        from: 3,
        to: 2,
    };
    let own_mate = Condition::Flaw {
        kind: FlawKind::Mate,
        place: 0,
    };
    let cases: [(Parts, Result<(i128, i128), Condition>); 7] = [
        (OF_COMMUTATOR, Ok((1, 2))),
        (OF_ANNULUS, Ok((0, 1))),
        (OF_NOTHING, Ok((0, 1))),
        (
            &[
                COMMUTATOR,
                HALF,
                TORUS,
                LIST,
                GREATER_TABLE,
                OTHER_TABLES,
                JOURNAL,
                END,
            ],
            Err(Condition::Table(step)),
        ),
        (
            &[
                COMMUTATOR,
                THREE_QUARTERS,
                TWICE_ROUND,
                LIST,
                FIRST_TABLE,
                OTHER_TABLES,
                JOURNAL,
                END,
            ],
            Err(Condition::NotTight),
        ),
        (
            &[
                COMMUTATOR,
                HALF,
                TWICE_ROUND,
                LIST,
                FIRST_TABLE,
                OTHER_TABLES,
                JOURNAL,
                END,
            ],
            Err(Condition::Value),
        ),
        (
            &[
                COMMUTATOR,
                HALF,
                OWN_MATE,
                LIST,
                FIRST_TABLE,
                OTHER_TABLES,
                JOURNAL,
                END,
            ],
            Err(own_mate),
        ),
    ];
    for (parts, want) in cases {
        assert_eq!(rt; judged(rt.alloc(), parts)?, want);
    }
    Ok(())
}
