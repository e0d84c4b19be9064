//! The greatest common divisor of a list and its scale.

ghost use Rattle.std.specs.Prelude.{◌≡◌, ◌<◌, ◌≤◌, ℕ, ℤ, pos, suc, ◌*ℤ◌, ◌<ℤ◌, unsigned_abs};
ghost use Rattle.std.specs.Int.{IsGcd};
ghost use Rattle.sc_basis.specs.Products.{IsReduced};
ghost use Rattle.sc_basis.specs.Divisors.{IsCommonDivisor};

/// It can be taken entry by entry, up to the first at which it is 1.
pub fn divisors_by_entries()
    ensures none { (v : ℕ → ℤ) (d : ℤ) → IsCommonDivisor 0 v d (unsigned_abs d) }
    ensures next { (n : ℕ) (v : ℕ → ℤ) (d : ℤ) (g h : ℕ) →
        IsCommonDivisor n v d g → IsGcd g (unsigned_abs (v n)) h → IsCommonDivisor (suc n) v d h }
    ensures one { (m n : ℕ) (v : ℕ → ℤ) (d : ℤ) →
        m ≤ n → IsCommonDivisor m v d 1 → IsCommonDivisor n v d 1 }
    ensures positive { (n : ℕ) (v : ℕ → ℤ) (d : ℤ) (g : ℕ) →
        pos 0 <ℤ d → IsCommonDivisor n v d g → 0 < g }
{}

/// A list and its scale that are divided by it have no further common divisor.
pub fn divided_lists()
    ensures reduced { (n : ℕ) (v w : ℕ → ℤ) (d e : ℤ) (g : ℕ) → pos 0 <ℤ e → IsCommonDivisor n w e g →
        ((k : ℕ) → k < n → pos g *ℤ v k ≡ w k) → pos g *ℤ d ≡ e → IsReduced n v d w e }
{}
