//! The definitions at small examples.

ghost use Rattle.std.specs.Prelude.{◌≡◌, ⊤, [], ◌∷◌, pos, negsuc};
ghost use Rattle.sc_theory.specs.Examples.{a, b, a', b', commutator};
ghost use Rattle.sc_cone.specs.declared.Quadrant.TheVariants.{Lower, Upper};
ghost use Rattle.sc_cone.specs.Directions.{down, right, up, cross};
ghost use Rattle.sc_cone.specs.Cones.{chain_of};
ghost use Rattle.sc_cone.specs.Fans.{IsFan};
ghost use Rattle.sc_cone.specs.Examples.{flat_fan, four_corners, commutators_fan};

/// The chains of some directions in the plane of the commutator taken twice.
pub fn chains_by_example()
    ensures upper { chain_of Upper commutator commutator (record { s = pos 3; t = pos 2 }) ≡ (3, a ∷ b ∷ a' ∷ b' ∷ []) ∷ (2, a ∷ b ∷ a' ∷ b' ∷ []) ∷ [] }
    ensures lower { chain_of Lower commutator commutator (record { s = pos 3; t = negsuc 1 }) ≡ (3, a ∷ b ∷ a' ∷ b' ∷ []) ∷ (2, b ∷ a ∷ b' ∷ a' ∷ []) ∷ [] }
    ensures turns { (cross down right ≡ pos 1) × (cross right up ≡ pos 1) }
{}

/// A fan with three corners; with a corner more, at which the list before is tight as well, it is none. The fan of the
/// commutators abAB and cdCD, with the value 1/2 at the three ends.
pub fn fan_by_example()
    ensures fan { IsFan flat_fan }
    ensures refused { IsFan four_corners → ⊥ }
    ensures commutators { IsFan commutators_fan }
{}
