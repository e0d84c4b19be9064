//! Laws of fans.

ghost use Rattle.std.specs.Prelude.{◌≡◌, ℕ, suc, ◌<◌, List, [], ◌∷◌, ◌++◌, length, get_or, ◌*ℤ◌};
ghost use Rattle.sc_theory.specs.Chains.{Chain, IsChain};
ghost use Rattle.sc_theory.specs.Prices.{Prices, Covers};
ghost use Rattle.sc_cone.specs.declared.Direction.{Direction};
ghost use Rattle.sc_cone.specs.declared.Quadrant.{Quadrant};
ghost use Rattle.sc_cone.specs.declared.Quadrant.TheVariants.{Lower, Upper};
ghost use Rattle.sc_cone.specs.Directions.{IsIn, IsBetween, TurnsLeft};
ghost use Rattle.sc_cone.specs.Cones.{quadrant_chain};
ghost use Rattle.sc_cone.specs.Values.{IsTightAt};
ghost use Rattle.sc_cone.specs.Fans.{Corner, Edge, Fan, no_edge, corner, edge, turn_to, quadrant_of, IsFan, IsGoodCorner, IsArc, IsHalf};

/// The corners of a fan are a function of its two chains: two fans of the same chains have as many corners, and each
/// has the same direction and the same value.
pub fn corners_are_fixed_by_the_chains()
    ensures count { (f g : Fan) → f.first ≡ g.first → f.second ≡ g.second → IsChain f.first → IsChain f.second → IsFan f → IsFan g → length f.corners ≡ length g.corners }
    ensures directions { (f g : Fan) (i : ℕ) → f.first ≡ g.first → f.second ≡ g.second → IsChain f.first → IsChain f.second → IsFan f → IsFan g → i < length f.corners → turn_to f i ≡ turn_to g i }
    ensures values { (f g : Fan) (i : ℕ) → f.first ≡ g.first → f.second ≡ g.second → IsChain f.first → IsChain f.second → IsFan f → IsFan g → i < length f.corners → (corner f i).value.0 *ℤ (corner g i).value.1 ≡ (corner g i).value.0 *ℤ (corner f i).value.1 }
{}

/// The halves of two quadrants that meet in one corner are a fan.
pub fn two_halves_are_a_fan()
    ensures { (first second : Chain) (before : List Corner) (c : Corner) (after : List Corner) (es fs : List Edge) → IsHalf Lower first second (before ++ c ∷ []) es → IsHalf Upper first second (c ∷ after) fs → IsFan (record { first = first; second = second; corners = before ++ c ∷ after; edges = es ++ fs }) }
{}

/// One corner is an arc. A further corner makes an arc longer: by an edge of its own where the last edge's list isn't
/// tight there, and else as the new end of the last edge.
pub fn arcs_grow()
    ensures one { (q : Quadrant) (first second : Chain) (c : Corner) → IsGoodCorner q first second c → IsArc q first second (c ∷ []) [] }
    ensures pushed { (q : Quadrant) (first second : Chain) (before : List Corner) (d : Corner) (es : List Edge) (x : Corner) (list : Prices) → IsArc q first second (before ++ d ∷ []) es → IsGoodCorner q first second x → TurnsLeft d.direction x.direction → Covers (quadrant_chain q first second) list → IsTightAt q first second list d.direction → IsTightAt q first second list x.direction → ((k : ℕ) → suc k ≡ length es → IsTightAt q first second (get_or es k no_edge).list x.direction → ⊥) → IsArc q first second (before ++ d ∷ x ∷ []) (es ++ (record { from = d; to = x; list = list }) ∷ []) }
    ensures extended { (q : Quadrant) (first second : Chain) (before : List Corner) (d : Corner) (es : List Edge) (e : Edge) (x : Corner) → IsChain first → IsChain second → IsArc q first second (before ++ d ∷ []) (es ++ e ∷ []) → IsGoodCorner q first second x → TurnsLeft d.direction x.direction → IsTightAt q first second e.list x.direction → IsArc q first second (before ++ x ∷ []) (es ++ (record { from = e.from; to = x; list = e.list }) ∷ []) }
{}

/// Each edge of a fan lies in its quadrant, and on the whole cone between its ends the value of each direction is that
/// of its list. Each direction of a quadrant lies in the cone of one of its edges.
pub fn edges_tell_all_values()
    ensures within { (f : Fan) (i : ℕ) → IsFan f → i < length f.edges → IsIn (quadrant_of f i) (turn_to f i) × IsIn (quadrant_of f i) (turn_to f (suc i)) }
    ensures values { (f : Fan) (i : ℕ) (x : Direction) → IsChain f.first → IsChain f.second → IsFan f → i < length f.edges → IsBetween (turn_to f i) (turn_to f (suc i)) x → IsTightAt (quadrant_of f i) f.first f.second (edge f i).list x }
    ensures cover { (f : Fan) (q : Quadrant) (x : Direction) → IsFan f → IsIn q x → (i : ℕ) × (i < length f.edges) × (quadrant_of f i ≡ q) × IsBetween (turn_to f i) (turn_to f (suc i)) x }
{}
