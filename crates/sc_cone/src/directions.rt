//! Laws of directions.

ghost use Rattle.std.specs.Prelude.{◌≡◌, pos};
ghost use Rattle.sc_cone.specs.declared.Direction.{Direction};
ghost use Rattle.sc_cone.specs.declared.Quadrant.{Quadrant};
ghost use Rattle.sc_cone.specs.Directions.{IsIn, IsPrimitive, TurnsLeft, cross};

/// Two primitive directions of a quadrant neither of which is to the left of the other are one.
pub fn primitive_directions_are_one()
    ensures { (q : Quadrant) (d e : Direction) → IsIn q d → IsIn q e → IsPrimitive d → IsPrimitive e → cross d e ≡ pos 0 → d ≡ e }
{}

/// Within a quadrant, what is to the left of a direction to the left of another is to the left of that one too.
pub fn turning_left_goes_on()
    ensures { (q : Quadrant) (d e x : Direction) → IsIn q d → IsIn q e → IsIn q x → TurnsLeft d e → TurnsLeft e x → TurnsLeft d x }
{}
