//! Two small bases by computing, and near misses that the definitions refuse.

ghost use Rattle.std.specs.Prelude.{None, Some, [], pos};
ghost use Rattle.sc_basis.specs.Bases.{columns, fine_costs, unit_basis};
ghost use Rattle.sc_basis.specs.Standing.{Gives, Stands};
ghost use Rattle.sc_basis.specs.Journals.{IsJournal, basis_after};
ghost use Rattle.sc_basis.specs.Evidence.{IsEvidence, row_difference};
ghost use Rattle.sc_basis.specs.Examples.{
  doubled_numbers,
  one_word,
  square_enters,
  square_numbers,
  two_starts,
  two_starts_enter,
  two_starts_numbers,
  two_starts_too_early,
  two_words,
  wrong_scale_numbers,
};

/// The polygon of the commutator enters at the row of the word.
pub fn polygon_of_one_word()
    ensures lawful { IsJournal 3 one_word square_enters }
    ensures stands { Stands 3 (basis_after (unit_basis 3) square_enters) square_numbers }
{}

/// Prices with twice the scale don't stand, and neither do prices that are doubled with their scale, though
/// their products with the items are right.
pub fn other_prices_of_one_word()
    ensures scale { Stands 3 (basis_after (unit_basis 3) square_enters) wrong_scale_numbers → ⊥ }
    ensures products { let basis = basis_after (unit_basis 3) square_enters in
        Gives 3 (columns basis) (fine_costs basis) doubled_numbers.fine doubled_numbers.fine_scale }
    ensures divisor { Stands 3 (basis_after (unit_basis 3) square_enters) doubled_numbers → ⊥ }
{}

/// The polygon of two opposite words enters. The rows of both words have the same value, and the later one is
/// less at the first entry at which they differ: the earlier one may not leave.
pub fn polygon_of_two_words()
    ensures lawful { IsJournal 3 two_words two_starts_enter }
    ensures stands { Stands 3 (basis_after (unit_basis 3) two_starts_enter) two_starts_numbers }
    ensures refused { IsJournal 3 two_words two_starts_too_early → ⊥ }
{}

/// In that pivot the last entry of the row of the first word is 0 - 1, and this is told with the entering
/// column and the leaving row.
pub fn difference_in_the_row_of_the_first_word()
    ensures told { IsEvidence 3 two_words [] (row_difference 1 2) (Some two_starts) (Some 2) (pos 0) (pos 1) }
    ensures no_row { IsEvidence 3 two_words [] (row_difference 1 2) (Some two_starts) None (pos 0) (pos 1) → ⊥ }
    ensures other_order { IsEvidence 3 two_words [] (row_difference 1 2) (Some two_starts) (Some 2) (pos 1) (pos 0) →
        ⊥ }
{}
