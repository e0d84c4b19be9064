//! Laws of the kinds of lines.

ghost use Rattle.std.specs.Prelude.{ℕ, ◌≤◌};
ghost use Rattle.sc_words.specs.declared.limits.TheConstants.{GENERATORS};
ghost use Rattle.sc_text.specs.declared.limits.Limits.{Limits};
ghost use Rattle.sc_text.specs.Words.{word_line, word_fault, word_of_line, FitsIn};
ghost use Rattle.sc_text.specs.Sides.{side_line, side_fault, side_of_line, IsSideWithin};
ghost use Rattle.sc_text.specs.PriceLines.{scale_fault, scale_of_line, scale_line, IsScaleInRange, base_fault, base_of_line, base_line, IsPriceInRange, pair_fault, pair_price_of_line, pair_line};
ghost use Rattle.sc_text.specs.ValueLines.{value_fault, value_of_line, value_line, IsValueInRange};
ghost use Rattle.sc_text.specs.TableLines.{from_fault, entries_of_line, from_line, IsTableInRange};
ghost use Rattle.sc_line.specs.Formats.{IsLineKind};

/// The lines of each kind without a fault are the lines of the values in range, and tell them.
pub fn kinds_of_lines()
    ensures word { (m : Limits) (room : ℕ) → m.generators ≤ GENERATORS → IsLineKind (word_fault m room) word_of_line word_line (FitsIn m room) }
    ensures side { (m : Limits) → IsLineKind (side_fault m) side_of_line side_line (IsSideWithin m) }
    ensures value { IsLineKind value_fault value_of_line value_line IsValueInRange }
    ensures scale { IsLineKind scale_fault scale_of_line scale_line IsScaleInRange }
    ensures base { IsLineKind base_fault base_of_line base_line IsPriceInRange }
    ensures pair { (p : ℕ × ℕ) → IsLineKind (pair_fault p) pair_price_of_line (pair_line p) IsPriceInRange }
    ensures from { (count s : ℕ) → IsLineKind (from_fault count s) entries_of_line (from_line s) (IsTableInRange count) }
{}
