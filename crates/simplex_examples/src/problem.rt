//! Right sides with their columns.

ghost use Rattle.std.specs.Prelude.{IsTrue};
ghost use Rattle.simplex_examples.specs.Problems.{is_sound};

use crate::listing::Listing;

/// A right side, and columns of which some sum to it.
#[derive(Clone, Copy, Debug)]
pub struct Problem {
    /// What columns sum to, for each row at least 0.
    pub rhs: &'static [i128],
    /// A number for each row. Its product with each column is at least 1.
    pub lengths: &'static [i128],
    /// The columns, no two with equal keys.
    pub listings: &'static [Listing],
    /// How many of the columns, from the first on, sum to the right side.
    pub shares: usize,
    pub ghost sound: { IsTrue (is_sound rhs.now lengths.now listings.now shares) },
}
