//! Laws of polygons that balance.

ghost use Rattle.std.specs.Prelude.{ℕ, ◌<◌, List};
ghost use Rattle.sc_theory.specs.Chains.{Chain, IsChain, IsBalanced};
ghost use Rattle.sc_gluing.specs.Cycles.{Parts};
ghost use Rattle.sc_gluing.specs.Gluing.{AreBalanced};
ghost use Rattle.sc_assembly.specs.declared.parts.Part.{Part};
ghost use Rattle.sc_assembly.specs.Multiples.{AreCounts, counted, AreValues};

/// For each balanced chain there are polygons, each standing once, whose columns come to the right side.
pub fn balanced_chains_have_polygons()
    ensures { (c : Chain) → IsChain c → IsBalanced c → (parts : Parts) × AreBalanced c 1 parts }
{}

/// Values are known by one of their multiples: where the counts for some number of copies balance, those for each
/// number do.
pub fn one_multiple_shows_the_values()
    ensures { (c : Chain) (parts : List Part) (n : ℕ) (counts : List ℕ) → 0 < n → AreCounts n parts counts → AreBalanced c n (counted parts counts) → AreValues c parts }
{}
