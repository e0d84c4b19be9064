//! Laws of the chains of directions.

ghost use Rattle.std.specs.Prelude.{◌≤◌, ◌↔◌};
ghost use Rattle.sc_theory.specs.Chains.{Chain, weighted_length};
ghost use Rattle.sc_chain.specs.declared.limits.TheConstants.{MAX_LENGTH};
ghost use Rattle.sc_cone.specs.declared.Direction.{Direction};
ghost use Rattle.sc_cone.specs.declared.Quadrant.{Quadrant};
ghost use Rattle.sc_cone.specs.Cones.{chain_of};
ghost use Rattle.sc_crossing.specs.Lengths.{IsLight};

/// A direction is light exactly where its chain is no longer than a chain may be, in either quadrant.
pub fn light_directions_have_light_chains()
    ensures { (q : Quadrant) (first second : Chain) (d : Direction) →
        IsLight first second d ↔ (weighted_length (chain_of q first second d) ≤ MAX_LENGTH) }
{}
