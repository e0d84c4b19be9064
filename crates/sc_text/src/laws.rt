//! Laws of surface texts.

ghost use Rattle.std.specs.Prelude.{◌≡◌, ℕ, List};
ghost use Rattle.sc_theory.specs.Chains.{Chain};
ghost use Rattle.sc_theory.specs.Fatgraphs.{Sides};
ghost use Rattle.sc_line.specs.Faults.{IsFaultless};
ghost use Rattle.sc_text.specs.Surfaces.{surface_plan, surface_text, IsSurfaceInRange};

/// The text of a surface in its ranges has no fault at any line, so it is read again.
pub fn surface_text_is_faultless()
    ensures { (c : Chain) (n : ℕ) (g : Sides) → IsSurfaceInRange c n g → IsFaultless surface_plan (surface_text c n g) }
{}

/// A text without a fault is the text of a surface in its ranges.
pub fn faultless_is_surface_text()
    ensures { (text : List ℕ) → IsFaultless surface_plan text → (c : Chain) × (n : ℕ) × (g : Sides) × IsSurfaceInRange c n g × (text ≡ surface_text c n g) }
{}

/// No two surfaces in their ranges have the same text.
pub fn surface_text_is_of_one_surface()
    ensures { (c : Chain) (n : ℕ) (g : Sides) (d : Chain) (m : ℕ) (h : Sides) → IsSurfaceInRange c n g → IsSurfaceInRange d m h
        → surface_text c n g ≡ surface_text d m h → (c ≡ d) × (n ≡ m) × (g ≡ h) }
{}
