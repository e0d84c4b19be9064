//! The rule by which new rows and prices are made, with small numbers on the way: a ratio in lowest terms in
//! place of two products.

ghost use Rattle.std.specs.Prelude.{ℕ, ℤ, pos, ◌+ℤ◌, ◌-ℤ◌, ◌*ℤ◌, ◌<ℤ◌};
ghost use Rattle.sc_basis.specs.Products.{IsReduced};
ghost use Rattle.sc_basis.specs.Rules.{IsLowest};
ghost use Rattle.sc_basis.specs.Pivots.{IsRatio};

/// The new row of a row `x` over `d` whose product with the column is `a`. The leaving row is `w`, its product
/// `al`, and `t` over `m` the leaving row over its product.
pub fn rows_by_rule()
    ensures reduced { (r : ℕ) (x w t y : ℕ → ℤ) (d e m al a p q : ℤ) →
        IsReduced r t m w al → IsLowest m a p q →
        IsReduced r y e (λ k. x k *ℤ p -ℤ q *ℤ t k) (d *ℤ p) →
        IsReduced r y e (λ k. al *ℤ x k -ℤ a *ℤ w k) (al *ℤ d) }
    ensures ratio { (m a p q : ℤ) → pos 0 <ℤ m → IsLowest m a p q → IsRatio m a p q }
{}

/// The new prices of prices `x` over `d` whose gap is `a`.
pub fn prices_by_rule()
    ensures reduced { (r : ℕ) (x w t y : ℕ → ℤ) (d e m al a p q : ℤ) →
        IsReduced r t m w al → IsLowest m a p q →
        IsReduced r y e (λ k. x k *ℤ p +ℤ q *ℤ t k) (d *ℤ p) →
        IsReduced r y e (λ k. al *ℤ x k +ℤ a *ℤ w k) (al *ℤ d) }
{}
