//! The fraction of a fatgraph.

ghost use Rattle.std.specs.Prelude.{◌≤◌, ◌*◌, ◌-ℤ◌, pos};
ghost use Rattle.sc_fraction.specs.Frac.{IsQuotient};

use crate::fatgraph::Counts;
use crate::limits::MAX_COPIES;
use sc_fraction::Frac;

/// Edges minus vertices, over twice the number of copies.
pub fn fraction(counts: &Counts, n: u32) -> Frac
    requires some_copies { 1 ≤ n }
    requires few_copies { n ≤ MAX_COPIES }
    ensures { IsQuotient (pos counts.now.edges -ℤ pos counts.now.vertices) (pos (2 * n)) result }
{
    let cost = i128::from(counts.edges) - i128::from(counts.vertices);
    Frac::new(cost, 2 * i128::from(n)).unwrap()
}
