//! Laws of walks at prices of two levels.

ghost use Rattle.std.specs.Prelude.{ℕ, ◌<◌, length, List, Option};
ghost use Rattle.sc_theory.specs.Chains.{Chain, positions};
ghost use Rattle.sc_weight.specs.Levels.{Levels, zero_levels};
ghost use Rattle.sc_tables.specs.Walks.{LeadsTo};
ghost use Rattle.sc_tables.specs.Totals.{open_total, IsBelow, IsAtMost};
ghost use Rattle.sc_tables.specs.Tables.{AllAtLeast, IsPolygonBelow, AreLeastTotals, VouchFor};

/// A closed walk whose total is below a threshold above 0 contains a polygon whose total is below it: where no polygon
/// is below the threshold, no closed walk is.
pub fn closed_walks_contain_polygons()
    ensures { (c : Chain) (price : ℕ → ℕ → Levels) (threshold : Levels) → IsBelow zero_levels threshold → ((walk : List ℕ) → ¬ IsPolygonBelow c price threshold walk) → AllAtLeast c price threshold }
{}

/// Walks of fewer steps than there are positions suffice where no closed walk is negative: each walk that doesn't come
/// back to its start has such a short one to the same end, whose total is at most its own.
pub fn short_walks_suffice()
    ensures { (c : Chain) (price : ℕ → ℕ → Levels) → AllAtLeast c price zero_levels → (s j : ℕ) (js : List ℕ) → s < positions c → LeadsTo c s j js → (ks : List ℕ) × (LeadsTo c s j ks × (length ks < positions c) × IsAtMost (open_total price s ks) (open_total price s js)) }
{}

/// Tables that vouch for a threshold above 0 show that every closed walk has a total of at least the threshold.
pub fn vouching_tables_bound_closed_walks()
    ensures { (c : Chain) (price : ℕ → ℕ → Levels) (threshold : Levels) (entry : ℕ → ℕ → Option Levels) → IsBelow zero_levels threshold → VouchFor c price threshold entry → AllAtLeast c price threshold }
{}

/// Where every closed walk has a total of at least a threshold above 0, tables of the least totals vouch for it.
pub fn least_totals_vouch()
    ensures { (c : Chain) (price : ℕ → ℕ → Levels) (threshold : Levels) (entry : ℕ → ℕ → Option Levels) → IsBelow zero_levels threshold → AllAtLeast c price threshold → AreLeastTotals c price entry → VouchFor c price threshold entry }
{}
