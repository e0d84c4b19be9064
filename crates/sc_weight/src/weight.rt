//! What all weights have in common.
ghost use Rattle.std.specs.Prelude.{◌≡◌, ◌↔◌, IfOk, IfErr, IsOk};
ghost use Rattle.std.specs.Cmp.{IsTotalOrder};
ghost use Rattle.sc_weight.specs.Levels.{Levels, zero_levels, levels_sum, levels_difference, levels_cmp, FitsBoth};
ghost use Rattle.sc_weight.specs.Evidence.{IsFirstWideLevel};
ghost use Rattle.sc_weight.specs.Laws.{levels_cmp_total, levels_sum_comm, levels_sum_assoc, levels_sum_zero, levels_difference_undoes, levels_sum_cmp};

use crate::WideLevel;
use sc_whole::Op;
use std::cmp::Ordering;

/// An ordered number of one level or two. It stands for a pair of unbounded whole numbers, bulk and fine, and each
/// sum or difference is exact, or names the first level at which it is outside `i128`.
pub trait Weight: Copy {
    /// The two whole numbers that a weight stands for.
    ghost levels: { Self → Levels };

    /// The weight of the numbers 0 and 0.
    fn zero() -> Self
        ensures { levels result ≡ zero_levels };

    /// The sum, or the first level at which it is too wide.
    fn plus(&self, other: &Self) -> Result<Self, WideLevel>
        ensures sum { IfOk result (λ w. levels w ≡ levels_sum (levels self.now) (levels other.now)) }
        ensures fits { IsOk result ↔ FitsBoth (levels_sum (levels self.now) (levels other.now)) }
        ensures evidence { IfErr result (IsFirstWideLevel Op.Add (levels_sum (levels self.now) (levels other.now)) (levels self.now) (levels other.now)) };

    /// The difference, or the first level at which it is too wide.
    fn minus(&self, other: &Self) -> Result<Self, WideLevel>
        ensures difference { IfOk result (λ w. levels w ≡ levels_difference (levels self.now) (levels other.now)) }
        ensures fits { IsOk result ↔ FitsBoth (levels_difference (levels self.now) (levels other.now)) }
        ensures evidence { IfErr result (IsFirstWideLevel Op.Sub (levels_difference (levels self.now) (levels other.now)) (levels self.now) (levels other.now)) };

    /// The order by bulk, and then by fine.
    fn compare(&self, other: &Self) -> Ordering
        ensures { result ≡ levels_cmp (levels self.now) (levels other.now) };

    // A weight is no more than the numbers that it stands for.
    ghost same_levels: { (x y : Self) → levels x ≡ levels y → x ≡ y };

    ghost total_order: { IsTotalOrder (λ (x y : Self). levels_cmp (levels x) (levels y)) } = { levels_cmp_total levels };

    ghost sums_commute: { (x y : Self) → levels_sum (levels x) (levels y) ≡ levels_sum (levels y) (levels x) } = { λ x y. levels_sum_comm (levels x) (levels y) };

    ghost sums_associate: { (x y z : Self) → levels_sum (levels_sum (levels x) (levels y)) (levels z) ≡ levels_sum (levels x) (levels_sum (levels y) (levels z)) } = { λ x y z. levels_sum_assoc (levels x) (levels y) (levels z) };

    ghost zero_adds_nothing: { (x : Self) → levels_sum (levels x) zero_levels ≡ levels x } = { λ x. levels_sum_zero (levels x) };

    ghost minus_undoes_plus: { (x y : Self) → levels_difference (levels_sum (levels x) (levels y)) (levels y) ≡ levels x } = { λ x y. levels_difference_undoes (levels x) (levels y) };

    ghost sums_keep_order: { (x y z : Self) → levels_cmp (levels_sum (levels x) (levels z)) (levels_sum (levels y) (levels z)) ≡ levels_cmp (levels x) (levels y) } = { λ x y z. levels_sum_cmp (levels x) (levels y) (levels z) };
}
