//! Laws of labelled fatgraphs side by side, and of the cone between two directions.

ghost use Rattle.std.specs.Prelude.{◌≡◌, ℕ, ◌+◌, ◌*◌, ◌<◌, length, pos, ◌+ℤ◌, ◌*ℤ◌};
ghost use Rattle.sc_theory.specs.Chains.{Chain, IsChain};
ghost use Rattle.sc_theory.specs.Fatgraphs.{Sides, vertices, cost, IsFatgraph};
ghost use Rattle.sc_theory.specs.Prices.{Prices, Covers};
ghost use Rattle.sc_cone.specs.declared.Direction.{Direction};
ghost use Rattle.sc_cone.specs.declared.Quadrant.{Quadrant};
ghost use Rattle.sc_cone.specs.Directions.{IsIn, TurnsLeft, IsBetween, IsCombination};
ghost use Rattle.sc_cone.specs.Cones.{chain_of, quadrant_chain};
ghost use Rattle.sc_cone.specs.Values.{IsTightAt, SameValueAt};
ghost use Rattle.sc_cone.specs.Unions.{together};

/// Copies of labelled fatgraphs over two directions of a quadrant, side by side, are a labelled fatgraph over each
/// direction a multiple of which is a sum of multiples of the two. Sides, vertices and costs are added.
pub fn copies_stand_side_by_side()
    ensures fatgraph { (q : Quadrant) (first second : Chain) (k i j : ℕ) (d e x : Direction) (n m : ℕ) (g h : Sides) → 0 < k → IsIn q d → IsIn q e → IsIn q x → IsCombination k i j d e x → IsFatgraph (chain_of q first second d) n g → IsFatgraph (chain_of q first second e) m h → IsFatgraph (chain_of q first second x) (k * (n * m)) (together (i * m) g (j * n) h) }
    ensures sides { (q : Quadrant) (first second : Chain) (i j : ℕ) (d e : Direction) (n m : ℕ) (g h : Sides) → IsFatgraph (chain_of q first second d) n g → IsFatgraph (chain_of q first second e) m h → length (together i g j h) ≡ i * length g + j * length h }
    ensures vertices { (q : Quadrant) (first second : Chain) (i j : ℕ) (d e : Direction) (n m : ℕ) (g h : Sides) → IsFatgraph (chain_of q first second d) n g → IsFatgraph (chain_of q first second e) m h → vertices (together i g j h) ≡ i * vertices g + j * vertices h }
    ensures cost { (q : Quadrant) (first second : Chain) (i j : ℕ) (d e : Direction) (n m : ℕ) (g h : Sides) → IsFatgraph (chain_of q first second d) n g → IsFatgraph (chain_of q first second e) m h → cost (together i g j h) ≡ pos i *ℤ cost g +ℤ pos j *ℤ cost h }
{}

/// A covering list that is tight at two directions is tight on the whole cone between them: there the value of each
/// direction is the list's value.
pub fn tight_on_the_cone()
    ensures sums { (q : Quadrant) (first second : Chain) (list : Prices) (k i j : ℕ) (d e x : Direction) → IsChain first → IsChain second → Covers (quadrant_chain q first second) list → 0 < k → IsIn q d → IsIn q e → IsCombination k i j d e x → IsTightAt q first second list d → IsTightAt q first second list e → IsTightAt q first second list x }
    ensures between { (q : Quadrant) (first second : Chain) (list : Prices) (d e x : Direction) → IsChain first → IsChain second → Covers (quadrant_chain q first second) list → IsIn q d → IsIn q e → TurnsLeft d e → IsBetween d e x → IsTightAt q first second list d → IsTightAt q first second list e → IsTightAt q first second list x }
    ensures inside { (q : Quadrant) (d e x : Direction) → IsIn q d → IsIn q e → TurnsLeft d e → IsBetween d e x → IsIn q x }
{}

/// Two lists that have one value at two directions have one value at each direction beyond: so where both are tight at
/// two directions, each is tight beyond wherever the other is.
pub fn lists_that_agree_twice()
    ensures values { (q : Quadrant) (first second : Chain) (l m : Prices) (d e x : Direction) → IsIn q d → IsIn q e → IsIn q x → TurnsLeft d e → TurnsLeft e x → TurnsLeft d x → SameValueAt q first second l m d → SameValueAt q first second l m e → SameValueAt q first second l m x }
    ensures tight { (q : Quadrant) (first second : Chain) (l m : Prices) (d e x : Direction) → IsIn q d → IsIn q e → IsIn q x → TurnsLeft d e → TurnsLeft e x → TurnsLeft d x → IsTightAt q first second l d → IsTightAt q first second l e → IsTightAt q first second m d → IsTightAt q first second m e → IsTightAt q first second m x → IsTightAt q first second l x }
{}
