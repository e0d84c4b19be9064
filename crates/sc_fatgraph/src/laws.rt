//! Laws of the flaws of lists of sides.

ghost use Rattle.std.specs.Prelude.{◌≡◌, ℕ, ◌<◌, ◌↔◌};
ghost use Rattle.sc_theory.specs.Chains.{Chain};
ghost use Rattle.sc_theory.specs.Fatgraphs.{Sides, IsFatgraph};
ghost use Rattle.sc_fatgraph.specs.declared.flaws.FlawKind.{FlawKind};
ghost use Rattle.sc_fatgraph.specs.Flaws.{HasFlaw, IsFirstFlaw};

/// Sides have no flaw exactly where they are a labelled fatgraph.
pub fn sides_without_flaw()
    ensures { (c : Chain) (n : ℕ) (g : Sides) → 0 < n → ((kind : FlawKind) (place : ℕ) → ¬ HasFlaw c n g kind place) ↔ IsFatgraph c n g }
{}

/// At most one flaw is the first.
pub fn one_first_flaw()
    ensures { (c : Chain) (n : ℕ) (g : Sides) (kind other : FlawKind) (place elsewhere : ℕ) →
        IsFirstFlaw c n g kind place → IsFirstFlaw c n g other elsewhere → (kind ≡ other) × (place ≡ elsewhere) }
{}
