//! Laws of fractions.
ghost use Rattle.std.specs.Prelude.{◌≡◌};
ghost use Rattle.sc_fraction.specs.declared.frac.Frac.{Frac};
ghost use Rattle.sc_fraction.specs.Frac.{numerator, denominator};
ghost use Rattle.sc_fraction.specs.Quotient.{SameQuotient};

/// Fractions of equal value are equal.
pub fn equal_values_are_equal_fractions()
    ensures { (x y : Frac) → SameQuotient (numerator x) (denominator x) (numerator y) (denominator y) → x ≡ y }
{}
