//! Laws of prices at two levels, and of their lift.

ghost use Rattle.std.specs.Prelude.{◌≡◌, ◌<◌, ℕ, ℤ, List, pos, ◌+ℤ◌, ◌*ℤ◌, ◌<ℤ◌};
ghost use Rattle.std.specs.Option.{option_map};
ghost use Rattle.sc_theory.specs.Chains.{Chain, positions, IsChain, IsBalanced};
ghost use Rattle.sc_theory.specs.Walks.{IsClosedWalk, walk_total};
ghost use Rattle.sc_theory.specs.Prices.{Prices, Tables, price, entry, bound, Covers, Vouch};
ghost use Rattle.sc_theory.specs.Columns.{rows, column, right_side};
ghost use Rattle.sc_weight.specs.declared.level.Level.TheVariants.{Bulk, Fine};
ghost use Rattle.sc_basis.specs.Products.{dot};
ghost use Rattle.sc_basis.specs.Bases.{entry_of};
ghost use Rattle.sc_rows.specs.Standing.{ArePrices};
ghost use Rattle.sc_rows.specs.declared.prices.PriceRows.{PriceRows};
ghost use Rattle.sc_simplex.specs.Oracles.{NoneImproves};
ghost use Rattle.sc_simplex.specs.Optima.{IsSumOfColumns};
ghost use Rattle.sc_tables.specs.Tables.{AllAtLeast, VouchFor};
ghost use Rattle.sc_tables.specs.Squares.{Square, cell};
ghost use Rattle.sc_tables.specs.StepPrices.{price_in};
ghost use Rattle.sc_tables.specs.CheapPolygons.{entry_in};
ghost use Rattle.sc_weight.specs.declared.plain.Plain.{Plain};
ghost use Rattle.sc_solve.specs.ListSteps.{number, one_level, plain_levels, AreListSteps};
ghost use Rattle.sc_solve.specs.PriceLevels.{list_by, list_at, price_levels, threshold_of, lifted_list};
ghost use Rattle.sc_solve.specs.PolygonColumns.{column_entries, IsPolygonColumn};
ghost use Rattle.sc_solve.specs.Lifts.{IsLift};

/// The product of prices of the rows with the column of a closed walk is the walk's total at these prices, and their
/// product with the right side is the bound.
pub fn columns_price_their_walks()
    ensures walks { (c : Chain) (v : ℕ → ℤ) (scale : ℤ) (walk : List ℕ) → IsChain c → IsClosedWalk c walk →
        dot (rows c) v (column c walk) ≡ walk_total (price c (list_by c v scale)) walk }
    ensures entries { (c : Chain) (walk : List ℕ) (k : ℕ) → k < rows c → entry_of (column_entries c walk) k ≡ column c walk k }
    ensures bound { (c : Chain) (v : ℕ → ℤ) (scale : ℤ) → dot (rows c) v (right_side c) ≡ bound c (list_by c v scale) }
{}

/// The lifted price of a closed walk, and the bound, are the fine one plus the factor times the bulk one.
pub fn lifted_prices_are_sums()
    ensures walks { (c : Chain) (p : PriceRows) (factor : ℤ) (walk : List ℕ) → IsChain c → IsClosedWalk c walk →
        walk_total (price c (lifted_list c p factor)) walk
        ≡ walk_total (price c (list_at c p Fine)) walk +ℤ factor *ℤ walk_total (price c (list_at c p Bulk)) walk }
    ensures bound { (c : Chain) (p : PriceRows) (factor : ℤ) →
        bound c (lifted_list c p factor) ≡ bound c (list_at c p Fine) +ℤ factor *ℤ bound c (list_at c p Bulk) }
{}

/// Where no polygon improves, every closed walk costs at least 0 in bulk and, where that is all, the scale in fine;
/// and the other way round.
pub fn optimal_prices_bound_closed_walks()
    ensures closed { (c : Chain) (p : PriceRows) → IsChain c → ArePrices (rows c) p →
        NoneImproves (IsPolygonColumn c) (rows c) p → AllAtLeast c (price_levels c p) (threshold_of p) }
    ensures columns { (c : Chain) (p : PriceRows) → IsChain c →
        AllAtLeast c (price_levels c p) (threshold_of p) → NoneImproves (IsPolygonColumn c) (rows c) p }
{}

/// The lift of prices at which no polygon improves covers: every closed walk costs at least the scale. There is one
/// lift.
pub fn lifts_cover()
    ensures covers { (c : Chain) (p : PriceRows) (list : Prices) → IsChain c → ArePrices (rows c) p →
        NoneImproves (IsPolygonColumn c) (rows c) p → IsLift c p list → Covers c list }
    ensures one { (c : Chain) (p : PriceRows) (list other : Prices) → IsLift c p list → IsLift c p other → list ≡ other }
{}

/// Where the least totals at one level vouch for the scale of a list, at the prices of the list, the tables of their
/// numbers vouch for the list: so what is known of tables at two levels holds of those of a certificate.
pub fn tables_of_one_level_vouch()
    ensures { (c : Chain) (list : Prices) (steps distances : Square Plain) (tables : Tables) → AreListSteps c list steps →
        ((s j : ℕ) → s < positions c → j < positions c → entry tables s j ≡ option_map number (cell distances s j)) →
        VouchFor c (price_in plain_levels steps) (one_level list.scale) (entry_in plain_levels distances) → Vouch c list tables }
{}

/// For each balanced chain some columns of polygons, repeats allowed, sum to the right side.
pub fn balanced_chains_are_sums_of_columns()
    ensures { (c : Chain) (b : ℕ → ℤ) → IsChain c → IsBalanced c → ((k : ℕ) → k < rows c → b k ≡ right_side c k) → IsSumOfColumns (IsPolygonColumn c) (rows c) b }
{}
