//! The definitions at small surfaces, which tell them from near misses.

ghost use Rattle.std.specs.Prelude.{[], ◌∷◌};
ghost use Rattle.sc_theory.specs.Examples.{commutator, torus, torus_by_steps, opposite_words, annulus};
ghost use Rattle.sc_gluing.specs.Cycles.{copies_of};
ghost use Rattle.sc_gluing.specs.Gluing.{IsGlued, AreBalanced};
ghost use Rattle.sc_gluing.specs.Seeds.{IsSeed};

/// One copy of the polygon 0 3 2 1 of the commutator is glued to the torus with its sides in the order round its
/// vertex, and one of the polygon 0 1 of two opposite words to the annulus. The torus with its sides in the order along
/// the boundary isn't glued of that polygon: it is the seed surface.
pub fn small_surfaces_are_glued()
    ensures balanced { AreBalanced commutator 1 ((0 ∷ 3 ∷ 2 ∷ 1 ∷ [], 1) ∷ []) }
    ensures torus { IsGlued commutator (copies_of ((0 ∷ 3 ∷ 2 ∷ 1 ∷ [], 1) ∷ [])) torus_by_steps }
    ensures refused { IsGlued commutator (copies_of ((0 ∷ 3 ∷ 2 ∷ 1 ∷ [], 1) ∷ [])) torus → ⊥ }
    ensures seed { IsSeed commutator torus }
    ensures balanced_annulus { AreBalanced opposite_words 1 ((0 ∷ 1 ∷ [], 1) ∷ []) }
    ensures annulus { IsGlued opposite_words (copies_of ((0 ∷ 1 ∷ [], 1) ∷ [])) annulus }
{}
