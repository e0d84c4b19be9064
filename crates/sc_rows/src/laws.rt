//! Laws of the definitions that the contracts cite.
ghost use Rattle.std.specs.Prelude.{ℕ, List};
ghost use Rattle.sc_basis.specs.Bases.{Basis};
ghost use Rattle.sc_basis.specs.Standing.{Stands};
ghost use Rattle.sc_rows.specs.Lines.{Line};
ghost use Rattle.sc_rows.specs.Standing.{RowsStand, PricesStand, numbers_of};
ghost use Rattle.sc_rows.specs.declared.prices.PriceRows.{PriceRows};

/// Rows and prices that stand for one basis are the numbers of it.
pub fn numbers_stand_together()
    ensures stand { (r : ℕ) (basis : Basis) (rows : List Line) (p : PriceRows) →
        RowsStand r basis rows → PricesStand r basis p → Stands r basis (numbers_of rows p) }
{}
