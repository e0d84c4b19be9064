//! Problems whose answers are known.

use crate::listing::Listing;
use crate::problem::Problem;

/// One column that is the right side.
pub const ONE_COLUMN: Problem = Problem {
    rhs: &[0, 1, 1],
    lengths: &[0, 1, 1],
    listings: &[Listing {
        key: &[0, 1],
        entries: &[(1, 1), (2, 1)],
    }],
    shares: 1,
};

/// A column for each row.
pub const TWO_COLUMNS: Problem = Problem {
    rhs: &[1, 1],
    lengths: &[1, 1],
    listings: &[
        Listing {
            key: &[0],
            entries: &[(0, 1)],
        },
        Listing {
            key: &[1],
            entries: &[(1, 1)],
        },
    ],
    shares: 2,
};

/// Seven places, and the ways from each to each later one but the way from the first to the last. A way's column is 1
/// at its end and -1 at its start, where the first place has no row. Who goes from the first place to the last goes six
/// ways at most.
pub const WAYS: Problem = Problem {
    rhs: &[0, 0, 0, 0, 0, 1],
    lengths: &[1, 2, 3, 4, 5, 6],
    listings: &[
        Listing {
            key: &[0, 1],
            entries: &[(0, 1)],
        },
        Listing {
            key: &[1, 6],
            entries: &[(0, -1), (5, 1)],
        },
        Listing {
            key: &[0, 2],
            entries: &[(1, 1)],
        },
        Listing {
            key: &[0, 3],
            entries: &[(2, 1)],
        },
        Listing {
            key: &[0, 4],
            entries: &[(3, 1)],
        },
        Listing {
            key: &[0, 5],
            entries: &[(4, 1)],
        },
        Listing {
            key: &[1, 2],
            entries: &[(0, -1), (1, 1)],
        },
        Listing {
            key: &[1, 3],
            entries: &[(0, -1), (2, 1)],
        },
        Listing {
            key: &[1, 4],
            entries: &[(0, -1), (3, 1)],
        },
        Listing {
            key: &[1, 5],
            entries: &[(0, -1), (4, 1)],
        },
        Listing {
            key: &[2, 3],
            entries: &[(1, -1), (2, 1)],
        },
        Listing {
            key: &[2, 4],
            entries: &[(1, -1), (3, 1)],
        },
        Listing {
            key: &[2, 5],
            entries: &[(1, -1), (4, 1)],
        },
        Listing {
            key: &[2, 6],
            entries: &[(1, -1), (5, 1)],
        },
        Listing {
            key: &[3, 4],
            entries: &[(2, -1), (3, 1)],
        },
        Listing {
            key: &[3, 5],
            entries: &[(2, -1), (4, 1)],
        },
        Listing {
            key: &[3, 6],
            entries: &[(2, -1), (5, 1)],
        },
        Listing {
            key: &[4, 5],
            entries: &[(3, -1), (4, 1)],
        },
        Listing {
            key: &[4, 6],
            entries: &[(3, -1), (5, 1)],
        },
        Listing {
            key: &[5, 6],
            entries: &[(4, -1), (5, 1)],
        },
    ],
    shares: 2,
};
