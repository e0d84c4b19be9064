//! Laws of rows and columns.

ghost use Rattle.std.specs.Prelude.{◌≡◌, ℕ, List, length, pos, ◌*ℤ◌};
ghost use Rattle.sc_algebra.specs.Sums.{sum_below};
ghost use Rattle.sc_theory.specs.Chains.{Chain};
ghost use Rattle.sc_theory.specs.Walks.{IsClosedWalk, IsPolygon};
ghost use Rattle.sc_theory.specs.Columns.{rows, column, length_row};

/// The product of the length row with the column of a polygon is the polygon's number of steps, and so it is for every
/// closed walk.
pub fn length_row_counts_the_steps()
    ensures polygons { (c : Chain) (walk : List ℕ) → IsPolygon c walk → sum_below (λ k. length_row c k *ℤ column c walk k) (rows c) ≡ pos (length walk) }
    ensures walks { (c : Chain) (walk : List ℕ) → IsClosedWalk c walk → sum_below (λ k. length_row c k *ℤ column c walk k) (rows c) ≡ pos (length walk) }
{}
